// The eight reads and the eight puts of an interval, over any panel.
ghost use Rattle.std.specs.Prelude.{◌≡◌, ℕ, ◌<◌, slice_index};
ghost use Rattle.panel.specs.Meaning.{after_puts, mask_of, placed};
ghost use Rattle.panel.specs.Sweeps.{read_all_of};

use crate::{Panel, PanelFault};

// Input words 0 to 7, or the first silent one.
pub fn read_all<P: Panel>(panel: &mut P) -> Result<[u16; 8], PanelFault>
    ensures answer { result ≡ read_all_of (P.meaning panel.old) }
    ensures after { P.meaning panel.new ≡ P.meaning panel.old }
    ensures rest { P.rest panel.new ≡ P.rest panel.old }
{
    let mut words = [0u16; 8];
    for (k, word) in words.iter_mut().enumerate() {
        *word = panel.read(k as u8)?;
    }
    Ok(words)
}

// Puts output words 0 to 7 in order and passes over the silent ones. The answer has bit k set for a silent word k.
pub fn put_all<P: Panel>(panel: &mut P, words: &[u16; 8]) -> u8
    ensures mask { result ≡ mask_of (P.meaning panel.old).output_answers 8 }
    ensures after { P.meaning panel.new ≡ after_puts (P.meaning panel.old) words.now 8 }
    ensures rest { P.rest panel.new ≡ P.rest panel.old }
    ensures places { (k : ℕ) → k < 8 → slice_index (P.meaning panel.new).outputs k ≡ placed (P.meaning panel.old) words.now k }
{
    let mut mask = 0u8;
    for (word, value) in words.iter().enumerate() {
        if panel.put(word as u8, *value).is_err() {
            mask |= 1 << word;
        }
    }
    mask
}
