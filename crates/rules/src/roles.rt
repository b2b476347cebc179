// What the linking rules ask of a single token.
ghost use Rattle.std.specs.Prelude.{◌≡◌, ℕ, ◌↔◌, Some, Decides};
ghost use Rattle.tokens.specs.Tokens.{lexeme, label, call};
ghost use Rattle.rules.specs.Levels.{after, Level1Alone};
ghost use Rattle.rules.specs.Bytes.{Stores};
ghost use Rattle.rules.specs.Tables.{span, Covers, Overlap, StoresAmong};

use tokens::{Area, Token, WordCell};

// Some of the 144 bytes, by the numbers of the first and the last.
#[derive(Clone, Copy)]
pub struct Span {
    pub first: u16,
    pub last: u16,
}

impl Span {
    // Whether a byte lies in both.
    pub(crate) fn meets(self, other: Span) -> bool
        ensures { Decides result (Overlap self other) }
    {
        self.first.max(other.first) <= self.last.min(other.last)
    }
}

// The number of a label. This and `callee_of` differ in a pattern, for which a parameter would be longer than the match.
pub(crate) fn label_of(token: &Token) -> Option<u8>
    ensures { (n : ℕ) → (lexeme token.now).kind ≡ label n ↔ result ≡ Some n }
{
    match *token {
        Token::Label(_, n) => Some(n),
        _ => None,
    }
}

// The label that a call goes to.
pub(crate) fn callee_of(token: &Token) -> Option<u8>
    ensures { (n : ℕ) → (lexeme token.now).kind ≡ call n ↔ result ≡ Some n }
{
    match *token {
        Token::Call(_, n) => Some(n),
        _ => None,
    }
}

// The module behind a token that stands in module `within`.
pub(crate) fn home_behind(token: &Token, within: Option<u8>) -> Option<u8>
    ensures { result ≡ after (lexeme token.now).kind within }
{
    label_of(token).or(within)
}

// Whether a token is for level 1 alone.
pub(crate) fn is_for_level_one(token: &Token) -> bool
    ensures { Decides result (Level1Alone (lexeme token.now).kind) }
{
    match *token {
        Token::LoadBit(_, cell, _) | Token::Test(_, cell, _) => cell.area == Area::Change,
        Token::LoadWord(_, WordCell::Pair(area, _), _) => area == Area::Change,
        Token::StoreWord(_, WordCell::Timer(_), _) => true,
        _ => false,
    }
}

// Byte `byte` of an area and `more` behind it, where tokens may store there.
fn span_of(area: Area, byte: u8, more: u8) -> Option<Span>
    ensures { result ≡ span area byte more }
{
    let first = match area {
        Area::Output => 128 + u16::from(byte),
        Area::Internal => u16::from(byte),
        Area::Input | Area::Change => return None,
    };
    Some(Span {
        first,
        last: first + u16::from(more),
    })
}

// The bytes that a token stores into.
pub(crate) fn stored_by(token: &Token) -> Option<Span>
    ensures { (b : ℕ) → Stores (lexeme token.now).kind b ↔ Covers result b }
{
    match *token {
        Token::StoreBit(_, cell, _) | Token::Switch(_, cell, _) => span_of(cell.area, cell.byte, 0),
        Token::StoreWord(_, WordCell::Pair(area, byte), _) => span_of(area, byte, 1),
        _ => None,
    }
}

// Whether a token stores into one of the bytes.
pub(crate) fn stores_among(token: &Token, bytes: Span) -> bool
    ensures { Decides result (StoresAmong (lexeme token.now).kind bytes) }
{
    stored_by(token).is_some_and(|own| own.meets(bytes))
}
