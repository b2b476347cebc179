// The code of a list, made from its tokens in one pass: one instruction for each step, skips found by a look ahead.
#![tactic(auto)]

ghost use Rattle.std.specs.Prelude.{◌≡◌, ◌+◌, ◌<◌, ◌≤◌, ◌++◌, length, drop, None};
ghost use Rattle.tokens.specs.Tokens.{lexeme};
ghost use Rattle.grammar.specs.Verdict.{kinds_of};
ghost use Rattle.emission.specs.Emission.{total, branch, place_in, made, instructions, fits, code_length, written_over};
ghost use Rattle.emission.specs.Claims.{CodeByTokens, PlacesByTokens, SoundCode};

mod parts;

use crate::parts::{Pending, Turn, asks_for, open_bracket, take_value, turn_of, weight_of};
use program::instruction::{Check, Instruction, Source};
use reading::Placed;
use tokens::Token;

// How many instructions the tokens make.
fn count(tokens: &[Placed]) -> usize
    ensures total { result ≡ total (kinds_of tokens.now) }
{
    tokens.iter().map(|placed| weight_of(&placed.token)).sum()
}

// How many instructions stand from the first token to the end of the branch it is in, an `E` included.
fn branch_len(tokens: &[Placed]) -> usize
    ensures length { result ≡ branch 0 (kinds_of tokens.now) }
    ensures most { result ≤ length tokens.now }
{
    let mut n = 0;
    let mut depth: usize = 0;
    for placed in tokens {
        let token = placed.token;
        match turn_of(&token) {
            None => {}
            Some(Turn::Opening) => depth += 1,
            Some(Turn::Otherwise) if depth == 0 => return n + weight_of(&token),
            Some(Turn::Otherwise) => {}
            Some(Turn::Closing) if depth == 0 => return n,
            Some(Turn::Closing) => depth -= 1,
        }
        n += weight_of(&token);
    }
    n
}

// The place of module `label`, if the first token has the place `first`.
fn place_from(tokens: &[Placed], first: usize, label: u8) -> usize
    requires { first ≤ 2048 }
    ensures place { result ≡ place_in label first (kinds_of tokens.now) }
    ensures most { result ≤ first + length tokens.now }
{
    let mut place = first;
    for placed in tokens {
        if placed.token.is_label(label) {
            return place;
        }
        place += weight_of(&placed.token);
    }
    place
}

// The instruction that a token makes at place `at`, if it makes one, where `behind` are the tokens behind it.
fn instruction(
    token: &Token,
    behind: &[Placed],
    pending: Option<Pending>,
    at: usize,
) -> Option<Instruction>
    requires few { length behind.now ≤ 2048 }
    requires low { at < 2048 }
    ensures { result ≡ made pending at (lexeme token.now).kind (kinds_of behind.now) }
{
    let skip = branch_len(behind) as u16;
    let made = match *token {
        Token::Open(_) => open_bracket(pending),
        Token::Close(_) => Instruction::Close,
        Token::Number(_, v) | Token::LoadNumber(_, v) => {
            take_value(pending, Source::Number(v), skip)
        }
        Token::LoadBit(_, cell, not) => take_value(pending, Source::Bit(cell, not), skip),
        Token::LoadWord(_, cell, not) => take_value(pending, Source::Word(cell, not), skip),
        Token::StoreBit(_, cell, not) => Instruction::StoreBit(cell, not),
        Token::StoreWord(_, cell, not) => Instruction::StoreWord(cell, not),
        Token::Switch(_, cell, on) => Instruction::Switch(cell, on),
        Token::Test(_, cell, not) => Instruction::Test(Check::Bit(cell, not), skip),
        Token::Else(_) => Instruction::Skip(skip),
        Token::End(_, _) | Token::Return(_) => Instruction::Return,
        Token::Call(_, label) => Instruction::Call(place_from(behind, at + 1, label) as u16),
        Token::Operator(_, _) | Token::Comparison(_, _) | Token::EndIf(_) | Token::Label(_, _) => {
            return None;
        }
    };
    Some(made)
}

// Writes the instructions of the tokens to the front of the memory, and answers how many there are. They have a count of
// their own, since not each token makes one and the memory is handed over.
fn fill(tokens: &[Placed], code: &mut [Instruction; 2048]) -> usize
    requires few { length tokens.now ≤ 2048 }
    requires room { total (kinds_of tokens.now) < 2048 }
    ensures count { result ≡ total (kinds_of tokens.now) }
    ensures code { code.new ≡ instructions None 0 (kinds_of tokens.now) ++ drop result code.old }
{
    let mut pending = None;
    let mut n = 0;
    for (i, placed) in tokens.iter().enumerate() {
        if let Some(made) = instruction(&placed.token, &tokens[i + 1..], pending, n) {
            code[n] = made;
            n += 1;
        }
        pending = asks_for(&placed.token);
    }
    n
}

// Whether there are at most 2,048 tokens, and instructions with the last `Return`.
fn has_room(tokens: &[Placed]) -> bool
    ensures { result ≡ fits (kinds_of tokens.now) }
{
    tokens.len() <= 2048 && count(tokens) < 2048
}

// Writes the code of a list to the front of the memory and answers its length. Refused, with nothing written, where there
// are more than 2,048 tokens or instructions. The memory is handed over, since this crate has no heap.
pub fn emit(tokens: &[Placed], code: &mut [Instruction; 2048]) -> Option<u16>
    ensures answer { result ≡ code_length (kinds_of tokens.now) }
    ensures code { code.new ≡ written_over (kinds_of tokens.now) code.old }
    ensures tree { CodeByTokens }
    ensures sound { SoundCode }
{
    if !has_room(tokens) {
        return None;
    }
    let n = fill(tokens, code);
    code[n] = Instruction::Return;
    Some((n + 1) as u16)
}

// The place of module `label` in the code; the last place where there is none.
pub fn entry(tokens: &[Placed], label: u8) -> usize
    ensures place { result ≡ place_in label 0 (kinds_of tokens.now) }
    ensures tree { PlacesByTokens }
{
    place_from(tokens, 0, label)
}
