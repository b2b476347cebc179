// The part that a token has in the code.
ghost use Rattle.std.specs.Prelude.{◌≡◌};
ghost use Rattle.tokens.specs.Tokens.{lexeme};
ghost use Rattle.emission.specs.Emission.{weight, asks, turn, taking, opening};

use program::instruction::{Check, Instruction, Source};
use tokens::{Comparison, Operator, Token};

// What the token before asks for: the operand of an operator, or what a comparison compares with.
#[derive(Clone, Copy)]
pub enum Pending {
    Operand(Operator),
    Comparand(Comparison),
}

// What a token is to the conditions around it.
#[derive(Clone, Copy)]
pub enum Turn {
    Opening,
    Otherwise,
    Closing,
}

// How many instructions a token makes.
pub(crate) fn weight_of(token: &Token) -> usize
    ensures { result ≡ weight (lexeme token.now).kind }
{
    match *token {
        Token::Operator(_, _) | Token::Comparison(_, _) | Token::EndIf(_) | Token::Label(_, _) => 0,
        _ => 1,
    }
}

pub(crate) fn asks_for(token: &Token) -> Option<Pending>
    ensures { result ≡ asks (lexeme token.now).kind }
{
    match *token {
        Token::Operator(_, operator) => Some(Pending::Operand(operator)),
        Token::Comparison(_, comparison) => Some(Pending::Comparand(comparison)),
        _ => None,
    }
}

pub(crate) fn turn_of(token: &Token) -> Option<Turn>
    ensures { result ≡ turn (lexeme token.now).kind }
{
    match *token {
        Token::Test(_, _, _) | Token::Comparison(_, _) => Some(Turn::Opening),
        Token::Else(_) => Some(Turn::Otherwise),
        Token::EndIf(_) => Some(Turn::Closing),
        _ => None,
    }
}

// The instruction of a value: a false comparison passes over `skip` instructions.
pub(crate) fn take_value(pending: Option<Pending>, source: Source, skip: u16) -> Instruction
    ensures { result ≡ taking pending source skip }
{
    match pending {
        None => Instruction::Load(source),
        Some(Pending::Operand(operator)) => Instruction::Apply(operator, source),
        Some(Pending::Comparand(comparison)) => {
            Instruction::Test(Check::Compare(comparison, source), skip)
        }
    }
}

pub(crate) fn open_bracket(pending: Option<Pending>) -> Instruction
    ensures { result ≡ opening pending }
{
    match pending {
        Some(Pending::Operand(operator)) => Instruction::Open(Some(operator)),
        _ => Instruction::Open(None),
    }
}
