// The tokens of the list language: what a word of the source is.
#![tactic(auto)]

pub mod cells;
pub mod numbers;
pub mod words;

ghost use Rattle.std.specs.Prelude.{◌≡◌, [], ◌∷◌, Some};
ghost use Rattle.std.specs.Fmt.{DisplaysOnOk};
ghost use Rattle.tokens.specs.Names.{byte_name};

use std::fmt;
pub use words::classify;

// Why a word is no token: none is written so, or only the values of decimal digits are wrong.
#[derive(Clone, Copy, Debug, PartialEq, Eq)]
pub enum WordFault {
    Unlisted,
    OutOfRange,
}

// I, Y, V and F.
#[derive(Clone, Copy, Debug, PartialEq, Eq)]
pub enum Area {
    Input,
    Output,
    Change,
    Internal,
}

// Prints an area by its letter.
impl fmt::Display for Area {
    ghost use Rattle.tokens.specs.Names.{letter};

    ghost output = { λ a. Some (letter a ∷ []) };

    fn fmt<W: fmt::Write>(&self, f: &mut fmt::Formatter<W>) -> fmt::Result {
        f.write_char(match self {
            Area::Input => 'I',
            Area::Output => 'Y',
            Area::Change => 'V',
            Area::Internal => 'F',
        })
    }
}

// One bit: bits 0 to 7 of a byte of an area. The bytes of I, Y and V are numbered 4 x board + byte, those of F 0 to 127.
#[derive(Clone, Copy, Debug, PartialEq, Eq)]
pub struct BitCell {
    pub area: Area,
    pub byte: u8,
    pub bit: u8,
}

// Prints a bit as a list names it: `I337` by board, byte and bit, `F1277` by byte and bit.
impl fmt::Display for BitCell {
    ghost use Rattle.tokens.specs.Names.{bit_name};

    ghost output = { λ c. Some (bit_name c) };

    fn fmt<W: fmt::Write>(&self, f: &mut fmt::Formatter<W>) -> fmt::Result {
        write_byte(f, self.area, self.byte)?;
        write!(f, "{}", self.bit)
    }
}

// Sixteen bits: an even byte of an area as the low half with the next byte as the high half, or a timer.
#[derive(Clone, Copy, Debug, PartialEq, Eq)]
pub enum WordCell {
    Pair(Area, u8),
    Timer(u8),
}

// Prints a word as a list names it: `I32` by board and byte, `F126` by its byte, `T19`.
impl fmt::Display for WordCell {
    ghost use Rattle.tokens.specs.Names.{word_name};

    ghost output = { λ c. Some (word_name c) };

    #[tactic(auto, using(crate::proofs::Names::zeros_before), unfolding(crate::specs::Names::zero_padded))]
    fn fmt<W: fmt::Write>(&self, f: &mut fmt::Formatter<W>) -> fmt::Result {
        match self {
            WordCell::Pair(area, byte) => write_byte(f, *area, *byte),
            WordCell::Timer(timer) => write!(f, "T{timer:02}"),
        }
    }
}

// A byte by its area's letter, and its board and its number there, or three digits of F.
#[tactic(auto, using(crate::proofs::Names::zeros_before), unfolding(crate::specs::Names::zero_padded))]
fn write_byte<W: fmt::Write>(f: &mut fmt::Formatter<W>, area: Area, byte: u8) -> fmt::Result
    ensures { DisplaysOnOk W.write_str_gives f.old result (Some (byte_name area byte)) f.new }
{
    match area {
        Area::Internal => write!(f, "{area}{byte:03}"),
        _ => write!(f, "{area}{}{}", byte / 4, byte % 4),
    }
}

#[derive(Clone, Copy, Debug, PartialEq, Eq)]
pub enum Operator {
    And,
    Or,
    Xor,
    Add,
    Subtract,
}

#[derive(Clone, Copy, Debug, PartialEq, Eq)]
pub enum Comparison {
    Less,
    Greater,
    Equal,
    AtMost,
    AtLeast,
}

// A token: its part of the source, and what that decodes to. The flag of a load, a store or a test says that `N` stands
// before it, that of a switch that it is `U`. The numbers of `End`, `Label` and `Call` are those of modules, so that of `J0`
// and `J1` is no enum of its own.
#[derive(Clone, Copy, Debug, PartialEq, Eq)]
pub enum Token<'a> {
    Open(&'a [u8]),
    Close(&'a [u8]),
    Number(&'a [u8], u16),
    LoadNumber(&'a [u8], u16),
    LoadBit(&'a [u8], BitCell, bool),
    LoadWord(&'a [u8], WordCell, bool),
    StoreBit(&'a [u8], BitCell, bool),
    StoreWord(&'a [u8], WordCell, bool),
    Switch(&'a [u8], BitCell, bool),
    Test(&'a [u8], BitCell, bool),
    Operator(&'a [u8], Operator),
    Comparison(&'a [u8], Comparison),
    Else(&'a [u8]),
    EndIf(&'a [u8]),
    End(&'a [u8], u8),
    Return(&'a [u8]),
    Label(&'a [u8], u8),
    Call(&'a [u8], u8),
}

impl<'a> Token<'a> {
    ghost use Rattle.std.specs.Prelude.{Decides};
    ghost use Rattle.tokens.specs.Tokens.{lexeme, labels, label};

    // Whether it is label n.
    pub fn is_label(&self, n: u8) -> bool
        ensures is { result ≡ labels n (lexeme self.now).kind }
        ensures decides { Decides result ((lexeme self.now).kind ≡ label n) }
    {
        match *self {
            Token::Label(_, found) => n == found,
            _ => false,
        }
    }

    // The part of the source that the token is.
    pub fn part(&self) -> &'a [u8]
        ensures { result.now ≡ (lexeme self.now).part }
    {
        match *self {
            Token::Open(part)
            | Token::Close(part)
            | Token::Number(part, _)
            | Token::LoadNumber(part, _)
            | Token::LoadBit(part, _, _)
            | Token::LoadWord(part, _, _)
            | Token::StoreBit(part, _, _)
            | Token::StoreWord(part, _, _)
            | Token::Switch(part, _, _)
            | Token::Test(part, _, _)
            | Token::Operator(part, _)
            | Token::Comparison(part, _)
            | Token::Else(part)
            | Token::EndIf(part)
            | Token::End(part, _)
            | Token::Return(part)
            | Token::Label(part, _)
            | Token::Call(part, _) => part,
        }
    }
}
