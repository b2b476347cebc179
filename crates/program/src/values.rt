// The arithmetic of cells.
ghost use Rattle.std.specs.Prelude.{◌≡◌, ◌<◌};
ghost use Rattle.program.specs.Cells.{number, bit_of_byte, bit_among, turned_word, combined as combination, compares, with_bit};
ghost use Rattle.program.specs.Machine.{joined};

use tokens::{Comparison, Operator};

// Bit r of a word.
pub(crate) fn bit_of(v: u16, r: u8) -> bool
    requires { r < 16 }
    ensures answer { number result ≡ bit_of_byte v r }
{
    (v >> r) % 2 == 1
}

// Bit r of byte b of the words of inputs.
pub(crate) fn bit_among(words: &[u16; 8], b: u8, r: u8) -> bool
    requires byte { b < 16 }
    requires bit { r < 8 }
    ensures answer { number result ≡ bit_among words.now b r }
{
    bit_of(words[b as usize / 2], 8 * (b % 2) + r)
}

// A byte with bit r set to 1 or to 0.
pub(crate) fn with_bit(byte: u8, r: u8, on: bool) -> u8
    requires { r < 8 }
    ensures answer { result ≡ with_bit byte r (number on) }
{
    if on {
        byte | (1 << r)
    } else {
        byte & !(1 << r)
    }
}

// A word, inverted where the flag is set.
pub(crate) fn turned_word(not: bool, v: u16) -> u16
    ensures answer { result ≡ turned_word not v }
{
    if not { !v } else { v }
}

pub(crate) fn combined(operator: Operator, a: u16, b: u16) -> u16
    ensures answer { result ≡ combination operator a b }
{
    match operator {
        Operator::And => a & b,
        Operator::Or => a | b,
        Operator::Xor => a ^ b,
        Operator::Add => a.wrapping_add(b),
        Operator::Subtract => a.wrapping_sub(b),
    }
}

pub(crate) fn compared(comparison: Comparison, a: u16, b: u16) -> bool
    ensures answer { result ≡ compares comparison a b }
{
    match comparison {
        Comparison::Less => a < b,
        Comparison::Greater => a > b,
        Comparison::Equal => a == b,
        Comparison::AtMost => a <= b,
        Comparison::AtLeast => a >= b,
    }
}

// What the saved OP and the value of a bracket make, by the operator before the bracket, if there is one.
pub(crate) fn joined(before: Option<Operator>, saved: u16, v: u16) -> u16
    ensures answer { result ≡ joined before saved v }
{
    before.map_or(v, |operator| combined(operator, saved, v))
}
