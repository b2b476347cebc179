// What a word of the source is, by its first bytes. A function takes the word, which its token keeps, and what stands behind
// the bytes that were matched: two slices and no struct, since each call cuts the second anew.
ghost use Rattle.std.specs.Prelude.{◌≡◌, true, false};
ghost use Rattle.tokens.specs.Cells.{bit_of, word_of};
ghost use Rattle.tokens.specs.Tokens.{lexed, named, on_ok, load_word, load_bit, store_word, store_bit, marked, mark, mark_equal, mark_of, load_cell_of, load_number_of, load_of, store_cell_of, store_of, switch_of, test_of, not_of, end_of, label_of, call_of, number_word_of, plain_of, kind_of};
ghost use Rattle.tokens.specs.Listed.{Verdict, OneVerdict};

use crate::cells::{bit_cell, is_word_like, switched_cell, word_cell};
use crate::numbers::{digits_value, number, shaped};
use crate::{Comparison, Operator, Token, WordFault};

// A token of one byte.
fn mark_of<'a>(part: &'a [u8], byte: u8) -> Result<Token<'a>, WordFault>
    ensures { lexed result ≡ named part.now (marked (mark byte)) }
{
    match byte {
        b'A' => Ok(Token::Operator(part, Operator::And)),
        b'O' => Ok(Token::Operator(part, Operator::Or)),
        b'X' => Ok(Token::Operator(part, Operator::Xor)),
        b'+' => Ok(Token::Operator(part, Operator::Add)),
        b'-' => Ok(Token::Operator(part, Operator::Subtract)),
        b'<' => Ok(Token::Comparison(part, Comparison::Less)),
        b'>' => Ok(Token::Comparison(part, Comparison::Greater)),
        b'=' => Ok(Token::Comparison(part, Comparison::Equal)),
        b'[' => Ok(Token::Open(part)),
        b']' => Ok(Token::Close(part)),
        b'E' => Ok(Token::Else(part)),
        b'Z' => Ok(Token::EndIf(part)),
        b'R' => Ok(Token::Return(part)),
        _ => Err(WordFault::Unlisted),
    }
}

// A byte with `=` behind it.
fn mark_equal_of<'a>(part: &'a [u8], byte: u8) -> Result<Token<'a>, WordFault>
    ensures { lexed result ≡ named part.now (marked (mark_equal byte)) }
{
    match byte {
        b'<' => Ok(Token::Comparison(part, Comparison::AtMost)),
        b'>' => Ok(Token::Comparison(part, Comparison::AtLeast)),
        _ => Err(WordFault::Unlisted),
    }
}

// A sign, or a letter that is a token by itself.
#[tactic(auto, using(crate::proofs::Parts::first_bytes), unfolding(crate::specs::Tokens::mark_of))]
fn mark_word<'a>(part: &'a [u8]) -> Result<Token<'a>, WordFault>
    ensures { lexed result ≡ named part.now (mark_of part.now) }
{
    match part {
        [byte] => mark_of(part, *byte),
        [byte, b'='] => mark_equal_of(part, *byte),
        _ => Err(WordFault::Unlisted),
    }
}

// A reference behind `L` or `NL`.
fn load_cell<'a>(part: &'a [u8], cell: &[u8], negated: bool) -> Result<Token<'a>, WordFault>
    ensures { lexed result ≡ named part.now (load_cell_of negated cell.now) }
{
    if is_word_like(cell) {
        Ok(Token::LoadWord(part, word_cell(cell)?, negated))
    } else {
        Ok(Token::LoadBit(part, bit_cell(cell)?, negated))
    }
}

// Behind `L`.
#[tactic(auto, using(crate::proofs::Parts::first_bytes), unfolding(crate::specs::Tokens::load_of))]
fn load_word<'a>(part: &'a [u8], rest: &[u8]) -> Result<Token<'a>, WordFault>
    ensures { lexed result ≡ named part.now (load_of rest.now) }
{
    match rest {
        [b'.' | b'0'..=b'9', ..] => Ok(Token::LoadNumber(part, number(rest)?)),
        _ => load_cell(part, rest, false),
    }
}

// A reference behind `S` or `NS`. A store has tokens of its own: closures for these would be longer than the two lines.
fn store_cell<'a>(part: &'a [u8], cell: &[u8], negated: bool) -> Result<Token<'a>, WordFault>
    ensures { lexed result ≡ named part.now (store_cell_of negated cell.now) }
{
    if is_word_like(cell) {
        Ok(Token::StoreWord(part, word_cell(cell)?, negated))
    } else {
        Ok(Token::StoreBit(part, bit_cell(cell)?, negated))
    }
}

// Behind `S` or `NS`.
#[tactic(auto, using(crate::proofs::Parts::first_bytes), unfolding(crate::specs::Tokens::store_of))]
fn store_word<'a>(part: &'a [u8], rest: &[u8], negated: bool) -> Result<Token<'a>, WordFault>
    ensures { lexed result ≡ named part.now (store_of negated rest.now) }
{
    match rest {
        [b'Y' | b'F' | b'T', ..] => store_cell(part, rest, negated),
        _ => Err(WordFault::Unlisted),
    }
}

// Behind `U` or `D`.
fn switch_word<'a>(part: &'a [u8], rest: &[u8], on: bool) -> Result<Token<'a>, WordFault>
    ensures { lexed result ≡ named part.now (switch_of on rest.now) }
{
    Ok(Token::Switch(part, switched_cell(rest)?, on))
}

// A bit that is tested: behind nothing or `N`.
fn test_word<'a>(part: &'a [u8], cell: &[u8], negated: bool) -> Result<Token<'a>, WordFault>
    ensures { lexed result ≡ named part.now (test_of negated cell.now) }
{
    Ok(Token::Test(part, bit_cell(cell)?, negated))
}

// Behind `N`.
#[tactic(auto, using(crate::proofs::Parts::first_bytes), unfolding(crate::specs::Tokens::not_of))]
fn not_word<'a>(part: &'a [u8], rest: &[u8]) -> Result<Token<'a>, WordFault>
    ensures { lexed result ≡ named part.now (not_of rest.now) }
{
    match rest {
        [b'L', cell @ ..] => load_cell(part, cell, true),
        [b'S', cell @ ..] => store_word(part, cell, true),
        _ => test_word(part, rest, true),
    }
}

// Behind `J`.
fn end_word<'a>(part: &'a [u8], rest: &[u8]) -> Result<Token<'a>, WordFault>
    ensures { lexed result ≡ named part.now (end_of rest.now) }
{
    let level = shaped(digits_value(10, 1, 1, rest), |level| {
        (level <= 1).then(|| level as u8)
    })?;
    Ok(Token::End(part, level))
}

// Behind `:`.
fn label_word<'a>(part: &'a [u8], rest: &[u8]) -> Result<Token<'a>, WordFault>
    ensures { lexed result ≡ named part.now (label_of rest.now) }
{
    let label = shaped(digits_value(10, 3, 3, rest), |label| {
        (label <= 199 && label != 2).then(|| label as u8)
    })?;
    Ok(Token::Label(part, label))
}

// Behind `G`.
fn call_word<'a>(part: &'a [u8], rest: &[u8]) -> Result<Token<'a>, WordFault>
    ensures { lexed result ≡ named part.now (call_of rest.now) }
{
    let label = shaped(digits_value(10, 3, 3, rest), |label| {
        (3..=199).contains(&label).then(|| label as u8)
    })?;
    Ok(Token::Call(part, label))
}

// A word that begins with no letter of a command.
#[tactic(auto, using(crate::proofs::Parts::first_bytes), unfolding(crate::specs::Tokens::plain_of))]
fn plain_word<'a>(part: &'a [u8]) -> Result<Token<'a>, WordFault>
    ensures { lexed result ≡ named part.now (plain_of part.now) }
{
    match part {
        [b'I' | b'Y' | b'V' | b'F', ..] => test_word(part, part, false),
        [b'.' | b'0'..=b'9', ..] => Ok(Token::Number(part, number(part)?)),
        _ => mark_word(part),
    }
}

// The token that a word is, looked up by its first byte.
#[tactic(auto, using(crate::proofs::Parts::first_bytes), unfolding(crate::specs::Tokens::kind_of))]
fn look_up<'a>(part: &'a [u8]) -> Result<Token<'a>, WordFault>
    ensures { lexed result ≡ named part.now (kind_of part.now) }
{
    match part {
        [b'L', rest @ ..] => load_word(part, rest),
        [b'N', rest @ ..] => not_word(part, rest),
        [b'S', rest @ ..] => store_word(part, rest, false),
        [b'U', rest @ ..] => switch_word(part, rest, true),
        [b'D', rest @ ..] => switch_word(part, rest, false),
        [b'J', rest @ ..] => end_word(part, rest),
        [b':', rest @ ..] => label_word(part, rest),
        [b'G', rest @ ..] => call_word(part, rest),
        _ => plain_word(part),
    }
}

// The token that a word is, or why it is none. The answer is the only one that the list of tokens gives.
pub fn classify<'a>(part: &'a [u8]) -> Result<Token<'a>, WordFault>
    ensures is { lexed result ≡ named part.now (kind_of part.now) }
    ensures verdict { Verdict part.now (lexed result) }
    ensures one { OneVerdict part.now }
{
    look_up(part)
}
