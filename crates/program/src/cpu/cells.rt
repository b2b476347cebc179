// The cells as a step reads and stores them. That there is such a cell is a `requires` here and no invariant of a type:
// `WordCell` is an enum, which takes no ghost field, and the invariant of `Program` gives the fact for each instruction.
ghost use Rattle.std.specs.Prelude.{◌≡◌, ◌+◌, ◌<◌, true};
ghost use Rattle.program.specs.Cells.{number, bit_value, pair_at, word_value, put_bit, put_pair, switch_bit_of, word_put};
ghost use Rattle.program.specs.Machine.{source_value, met};
ghost use Rattle.program.specs.Sound.{known_bit, known_word, known_source, known_check};
ghost use Rattle.program.specs.View.{seen, state, with_state};

use crate::cpu::Cpu;
use crate::instruction::{Check, Source};
use crate::sight::Sight;
use crate::values;
use tokens::{Area, BitCell, WordCell};

// Reading.
impl Cpu {
    fn bit(&self, sight: &Sight, cell: BitCell) -> bool
        requires { known_bit cell ≡ true }
        ensures answer { number result ≡ bit_value (seen sight.now) (state self.now) cell }
    {
        match cell.area {
            Area::Input => values::bit_among(&sight.inputs, cell.byte, cell.bit),
            Area::Output => values::bit_of(self.bytes[128 + cell.byte as usize] as u16, cell.bit),
            Area::Change => {
                let here = values::bit_among(&sight.inputs, cell.byte, cell.bit);
                let before = values::bit_among(&sight.previous, cell.byte, cell.bit);
                here != before
            }
            Area::Internal => values::bit_of(self.bytes[cell.byte as usize] as u16, cell.bit),
        }
    }

    // Two bytes as a word, the low one first.
    fn pair_at(&self, n: usize) -> u16
        requires { n + 1 < 144 }
        ensures answer { result ≡ pair_at self.now.bytes n }
    {
        u16::from_le_bytes([self.bytes[n], self.bytes[n + 1]])
    }

    fn word(&self, sight: &Sight, cell: WordCell) -> u16
        requires { known_word cell ≡ true }
        ensures answer { result ≡ word_value (seen sight.now) (state self.now) cell }
    {
        match cell {
            WordCell::Pair(Area::Input, b) => sight.inputs[b as usize / 2],
            WordCell::Pair(Area::Output, b) => self.pair_at(128 + b as usize),
            WordCell::Pair(Area::Change, b) => {
                sight.inputs[b as usize / 2] ^ sight.previous[b as usize / 2]
            }
            WordCell::Pair(Area::Internal, b) => self.pair_at(b as usize),
            WordCell::Timer(t) => self.timers[t as usize],
        }
    }

    pub(super) fn source_value(&self, sight: &Sight, source: Source) -> u16
        requires { known_source source ≡ true }
        ensures answer { result ≡ source_value (seen sight.now) (state self.now) source }
    {
        match source {
            Source::Number(v) => v,
            Source::Bit(cell, not) => u16::from(self.bit(sight, cell) != not),
            Source::Word(cell, not) => values::turned_word(not, self.word(sight, cell)),
        }
    }

    // Whether a condition is met.
    pub(super) fn is_met(&self, sight: &Sight, check: Check) -> bool
        requires { known_check check ≡ true }
        ensures answer { result ≡ met (seen sight.now) (state self.now) check }
    {
        match check {
            Check::Bit(cell, not) => self.bit(sight, cell) != not,
            Check::Compare(comparison, source) => {
                values::compared(comparison, self.op, self.source_value(sight, source))
            }
        }
    }
}

// Storing.
impl Cpu {
    // Sets bit r of byte n of the 144 to 1 or 0.
    fn put_bit(&mut self, n: usize, r: u8, on: bool)
        requires byte { n < 144 }
        requires bit { r < 8 }
        ensures answer { self.new ≡ with_state self.old (put_bit (state self.old) n r (number on)) }
    {
        self.bytes[n] = values::with_bit(self.bytes[n], r, on);
        self.stored[n] = true;
    }

    // Stores v in bytes n and n + 1 of the 144, the low half first.
    fn put_pair(&mut self, n: usize, v: u16)
        requires { n + 1 < 144 }
        ensures answer { self.new ≡ with_state self.old (put_pair (state self.old) n v) }
    {
        let [low, high] = v.to_le_bytes();
        self.bytes[n] = low;
        self.bytes[n + 1] = high;
        self.stored[n] = true;
        self.stored[n + 1] = true;
    }

    // Only Y and F take a bit.
    pub(super) fn store_bit(&mut self, cell: BitCell, on: bool)
        requires { known_bit cell ≡ true }
        ensures answer { self.new ≡ with_state self.old (switch_bit_of (state self.old) cell on) }
    {
        match cell.area {
            Area::Output => self.put_bit(128 + cell.byte as usize, cell.bit, on),
            Area::Internal => self.put_bit(cell.byte as usize, cell.bit, on),
            Area::Input | Area::Change => {}
        }
    }

    // Only Y, F and T take a word.
    pub(super) fn store_word(&mut self, cell: WordCell, v: u16)
        requires { known_word cell ≡ true }
        ensures answer { self.new ≡ with_state self.old (word_put (state self.old) cell v) }
    {
        match cell {
            WordCell::Pair(Area::Output, b) => self.put_pair(128 + b as usize, v),
            WordCell::Pair(Area::Internal, b) => self.put_pair(b as usize, v),
            WordCell::Pair(Area::Input | Area::Change, _) => {}
            WordCell::Timer(t) => self.timers[t as usize] = v,
        }
    }
}
