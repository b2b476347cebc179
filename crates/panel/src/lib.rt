// A panel of input and output words: what every panel promises, a bench panel, and the reads and puts of an interval.
#![tactic(auto)]

ghost use Rattle.std.specs.Prelude.{◌≡◌, ℕ, List, []};
ghost use Rattle.panel.specs.Answers.{index_of, unless_silent, read_of, put_answer};
ghost use Rattle.panel.specs.Faults.{cause_of, layer_of, place_of, causes_of_panels};
ghost use Rattle.panel.specs.Meaning.{Meaning, Sized, after_put};

pub use bench::Bench;
use faults::{Fault, Layer};
pub use sweeps::{put_all, read_all};

pub mod bench;
pub mod sweeps;

// Why a panel refuses a call: there is no such word (16), or the word is silent (15). Each names the word.
#[derive(Clone, Copy, Debug, PartialEq, Eq)]
pub enum PanelFault {
    NoSuchWord(u8),
    Silent(u8),
}

impl Fault for PanelFault {
    type Place = u8;

    ghost cause_of = { cause_of };

    ghost layer_of = { layer_of };

    ghost place_of = { place_of };

    ghost laws = { causes_of_panels };

    fn cause(self) -> u8 {
        match self {
            PanelFault::NoSuchWord(_) => 16,
            PanelFault::Silent(_) => 15,
        }
    }

    fn layer(self) -> Layer {
        Layer::Panel
    }

    // The word that is refused.
    fn place(self) -> u8 {
        match self {
            PanelFault::NoSuchWord(word) | PanelFault::Silent(word) => word,
        }
    }
}

// The index of a word, of which there are eight of each kind. Every panel refuses the others by 16.
pub fn word_index(word: u8) -> Result<usize, PanelFault>
    ensures { result ≡ index_of word }
{
    (word < 8)
        .then_some(usize::from(word))
        .ok_or(PanelFault::NoSuchWord(word))
}

// Lets a word pass that answers. Every panel refuses a silent one by 15.
pub fn check_answers(word: u8, answers: bool) -> Result<(), PanelFault>
    ensures { result ≡ unless_silent word answers }
{
    answers.then_some(()).ok_or(PanelFault::Silent(word))
}

// A panel shows its meaning and nothing else: reading an answering input gives its word, putting an answering output replaces
// that word, and a refused call changes nothing.
pub trait Panel {
    ghost meaning: { Self → Meaning };

    // What a panel has besides its meaning, as the place that a tape stands at. No call of the trait changes it.
    ghost rest: { Self → List ℕ } = { λ _. [] };

    fn read(&mut self, word: u8) -> Result<u16, PanelFault>
        ensures answer { result ≡ read_of (meaning self.old) word }
        ensures after { meaning self.new ≡ meaning self.old }
        ensures rest { rest self.new ≡ rest self.old }
        ensures sized { Sized (meaning self.new) };

    fn put(&mut self, word: u8, value: u16) -> Result<(), PanelFault>
        ensures answer { result ≡ put_answer (meaning self.old) word }
        ensures after { meaning self.new ≡ after_put (meaning self.old) word value }
        ensures rest { rest self.new ≡ rest self.old }
        ensures sized { Sized (meaning self.new) };

    // It has eight words of each kind. The clauses `sized` of the calls say so too, since behind a `dyn` there is no law.
    ghost sized: { (p : Self) → Sized (meaning p) };
}
