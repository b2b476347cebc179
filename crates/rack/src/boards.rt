// The registers of the cards, and which cards are in.
ghost use Rattle.std.specs.Prelude.{◌≡◌, length};

use panel::{Panel, PanelFault, check_answers, word_index};

#[derive(Drop)]
pub struct Rack {
    inputs: [u16; 8],
    outputs: [u16; 8],
    cards: [bool; 4],
    ghost sized: { (length inputs ≡ 8) × (length outputs ≡ 8) × (length cards ≡ 4) },
}

impl Rack {
    ghost use Rattle.rack.specs.Rack.{rack_meaning, fresh, with_cards, with_inputs};

    // All registers 0, no card in.
    pub fn new() -> Self
        ensures { rack_meaning result ≡ fresh }
    {
        Rack {
            inputs: [0; 8],
            outputs: [0; 8],
            cards: [false; 4],
        }
    }

    // Says which cards are in. The registers are kept.
    pub fn set_cards(&mut self, cards: [bool; 4])
        ensures { rack_meaning self.new ≡ with_cards (rack_meaning self.old) cards }
    {
        self.cards = cards;
    }

    // Sets the input registers, as the machine's contacts do.
    pub fn set_inputs(&mut self, words: [u16; 8])
        ensures { rack_meaning self.new ≡ with_inputs (rack_meaning self.old) words }
    {
        self.inputs = words;
    }
}

impl Panel for Rack {
    ghost use Rattle.rack.specs.Rack.{rack_meaning, sized_rack};

    ghost meaning = { rack_meaning };

    ghost sized = { sized_rack };

    fn read(&mut self, word: u8) -> Result<u16, PanelFault> {
        let at = word_index(word)?;
        check_answers(word, self.cards[at / 2])?;
        Ok(self.inputs[at])
    }

    fn put(&mut self, word: u8, value: u16) -> Result<(), PanelFault> {
        let at = word_index(word)?;
        check_answers(word, self.cards[at / 2])?;
        self.outputs[at] = value;
        Ok(())
    }
}
