// References to cells.
ghost use Rattle.std.specs.Prelude.{◌≡◌};
ghost use Rattle.tokens.specs.Cells.{area_bit_of, internal_bit_of, area_pair_of, internal_pair_of, timer_of, bit_of, word_of, word_like, switched_of};

use crate::numbers::{digits_value, shaped};
use crate::{Area, BitCell, WordCell, WordFault};

// Three digits: board, byte and bit.
fn area_bit(area: Area, digits: &[u8]) -> Result<BitCell, WordFault>
    ensures { result ≡ area_bit_of area digits.now }
{
    shaped(digits_value(10, 3, 3, digits), |value| {
        let (board, byte, bit) = (value / 100, value / 10 % 10, value % 10);
        (board <= 3 && byte <= 3 && bit <= 7).then(|| BitCell {
            area,
            byte: (board * 4 + byte) as u8,
            bit: bit as u8,
        })
    })
}

// Four digits: a byte of three, and a bit.
fn internal_bit(digits: &[u8]) -> Result<BitCell, WordFault>
    ensures { result ≡ internal_bit_of digits.now }
{
    shaped(digits_value(10, 4, 4, digits), |value| {
        let (byte, bit) = (value / 10, value % 10);
        (byte <= 127 && bit <= 7).then(|| BitCell {
            area: Area::Internal,
            byte: byte as u8,
            bit: bit as u8,
        })
    })
}

// Two digits: board and an even byte.
fn area_pair(area: Area, digits: &[u8]) -> Result<WordCell, WordFault>
    ensures { result ≡ area_pair_of area digits.now }
{
    shaped(digits_value(10, 2, 2, digits), |value| {
        let (board, byte) = (value / 10, value % 10);
        let is_word = board <= 3 && byte <= 3 && byte % 2 == 0;
        is_word.then(|| WordCell::Pair(area, (board * 4 + byte) as u8))
    })
}

// Three digits: an even byte.
fn internal_pair(digits: &[u8]) -> Result<WordCell, WordFault>
    ensures { result ≡ internal_pair_of digits.now }
{
    shaped(digits_value(10, 3, 3, digits), |byte| {
        (byte <= 127 && byte % 2 == 0).then(|| WordCell::Pair(Area::Internal, byte as u8))
    })
}

// Two digits: a timer.
fn timer(digits: &[u8]) -> Result<WordCell, WordFault>
    ensures { result ≡ timer_of digits.now }
{
    shaped(digits_value(10, 2, 2, digits), |timer| {
        (timer <= 19).then(|| WordCell::Timer(timer as u8))
    })
}

// The bit that a reference to I, Y, V or F names.
#[tactic(auto, using(crate::proofs::Parts::first_bytes), unfolding(crate::specs::Cells::bit_of))]
pub(crate) fn bit_cell(part: &[u8]) -> Result<BitCell, WordFault>
    ensures { result ≡ bit_of part.now }
{
    match part {
        [b'I', digits @ ..] => area_bit(Area::Input, digits),
        [b'Y', digits @ ..] => area_bit(Area::Output, digits),
        [b'V', digits @ ..] => area_bit(Area::Change, digits),
        [b'F', digits @ ..] => internal_bit(digits),
        _ => Err(WordFault::Unlisted),
    }
}

// The word that a reference to I, Y, V, F or T names: behind each letter other digits than those of a bit.
#[tactic(auto, using(crate::proofs::Parts::first_bytes), unfolding(crate::specs::Cells::word_of))]
pub(crate) fn word_cell(part: &[u8]) -> Result<WordCell, WordFault>
    ensures { result ≡ word_of part.now }
{
    match part {
        [b'I', digits @ ..] => area_pair(Area::Input, digits),
        [b'Y', digits @ ..] => area_pair(Area::Output, digits),
        [b'V', digits @ ..] => area_pair(Area::Change, digits),
        [b'F', digits @ ..] => internal_pair(digits),
        [b'T', digits @ ..] => timer(digits),
        _ => Err(WordFault::Unlisted),
    }
}

// Whether a reference is as long as one to a word.
#[tactic(auto, using(crate::proofs::Parts::first_bytes), unfolding(crate::specs::Cells::word_like))]
pub(crate) fn is_word_like(part: &[u8]) -> bool
    ensures { result ≡ word_like part.now }
{
    match part {
        [b'T', ..] => true,
        [b'F', ..] => part.len() == 4,
        _ => part.len() == 3,
    }
}

// The bit that is switched: three digits of an output bit, or an F bit.
#[tactic(auto, using(crate::proofs::Parts::first_bytes), unfolding(crate::specs::Cells::switched_of))]
pub(crate) fn switched_cell(part: &[u8]) -> Result<BitCell, WordFault>
    ensures { result ≡ switched_of part.now }
{
    match part {
        [b'F', digits @ ..] => internal_bit(digits),
        _ => area_bit(Area::Output, part),
    }
}
