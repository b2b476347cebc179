// The table of the grammar: what a token does where something is due.
ghost use Rattle.std.specs.Prelude.{◌≡◌};
ghost use Rattle.tokens.specs.Tokens.{lexeme};
ghost use Rattle.grammar.specs.Machine.{ending, class_of, rule_of, move_of};

use tokens::Token;

// How a module ends: with `R`, `J0` or `J1`.
#[derive(Clone, Copy, PartialEq, Eq)]
pub enum Ending {
    Return,
    Level0,
    Level1,
}

// Tokens by their part in the grammar. A label is known by the ending of its module.
#[derive(Clone, Copy)]
pub enum Class {
    Label(Ending),
    End(Ending),
    LoadNumber,
    LoadBit,
    LoadWord,
    Number,
    Operator,
    Open,
    Close,
    Action,
    BitTest,
    Comparison,
    Else,
    EndIf,
}

// A part of a condition: before its `E`, or behind it.
#[derive(Clone, Copy)]
pub enum Branch {
    Then,
    Otherwise,
}

// What a run of commands belongs to, which says how it may end.
#[derive(Clone, Copy)]
pub enum Block {
    Body(Ending),
    Branch(Branch),
}

// A value that the token before asks for: the first of a bracket, or what an operator or a comparison takes.
#[derive(Clone, Copy)]
pub enum Pending {
    First,
    Operand,
    Comparand,
}

// What is due next.
#[derive(Clone, Copy)]
pub enum Want {
    Modules,
    Commands(Block),
    Pending(Pending),
    Rest,
}

// What a token does to what is due. `Keep` is a move too, that of a command of one token; where there is no move, the token is
// at fault.
#[derive(Clone, Copy)]
pub enum Move {
    Keep,
    Fill,
    Begin,
    Nest,
    Operate,
    Unnest,
    Enter(Ending),
    Test,
    Compare,
    Turn,
    Leave,
    Finish,
}

// How the module with this label ends.
impl From<u8> for Ending {
    ghost from_gives = { λ label r. r ≡ ending label };

    fn from(label: u8) -> Ending {
        match label {
            1 => Ending::Level1,
            0 => Ending::Level0,
            _ => Ending::Return,
        }
    }
}

// Groups the tokens that the grammar does not tell apart. `J` with a digit other than 0 and 1 has no part, and no text that
// is read has such a token.
fn class_of(token: &Token) -> Option<Class>
    ensures { result ≡ class_of (lexeme token.now).kind }
{
    let class = match *token {
        Token::Open(_) => Class::Open,
        Token::Close(_) => Class::Close,
        Token::Number(_, _) => Class::Number,
        Token::LoadNumber(_, _) => Class::LoadNumber,
        Token::LoadBit(_, _, _) => Class::LoadBit,
        Token::LoadWord(_, _, _) => Class::LoadWord,
        Token::StoreBit(_, _, _)
        | Token::StoreWord(_, _, _)
        | Token::Switch(_, _, _)
        | Token::Call(_, _) => Class::Action,
        Token::Test(_, _, _) => Class::BitTest,
        Token::Operator(_, _) => Class::Operator,
        Token::Comparison(_, _) => Class::Comparison,
        Token::Else(_) => Class::Else,
        Token::EndIf(_) => Class::EndIf,
        Token::End(_, 1) => Class::End(Ending::Level1),
        Token::End(_, 0) => Class::End(Ending::Level0),
        Token::End(_, _) => return None,
        Token::Return(_) => Class::End(Ending::Return),
        Token::Label(_, label) => Class::Label(Ending::from(label)),
    };
    Some(class)
}

// What a token does where `want` is due; nothing where no text goes on so.
pub(crate) fn move_of(want: Want, token: &Token) -> Option<Move>
    ensures { result ≡ move_of want (lexeme token.now).kind }
{
    rule(want, class_of(token)?)
}

// The same for a token of this class.
fn rule(want: Want, class: Class) -> Option<Move>
    ensures { result ≡ rule_of want class }
{
    match want {
        Want::Modules => match class {
            Class::Label(asked) => Some(Move::Enter(asked)),
            _ => None,
        },
        Want::Commands(block) => command_rule(block, class),
        Want::Pending(Pending::First) => match class {
            Class::LoadNumber | Class::LoadBit | Class::LoadWord => Some(Move::Fill),
            Class::Open => Some(Move::Nest),
            _ => None,
        },
        Want::Rest => match class {
            Class::Operator => Some(Move::Operate),
            Class::Close => Some(Move::Unnest),
            _ => None,
        },
        Want::Pending(Pending::Operand) => match class {
            Class::Number | Class::LoadBit | Class::LoadWord => Some(Move::Fill),
            Class::Open => Some(Move::Nest),
            _ => None,
        },
        Want::Pending(Pending::Comparand) => match class {
            Class::Number | Class::LoadWord => Some(Move::Fill),
            _ => None,
        },
    }
}

// The same in a run of commands.
fn command_rule(block: Block, class: Class) -> Option<Move>
    ensures { result ≡ rule_of (Want.Commands block) class }
{
    match class {
        Class::LoadNumber | Class::LoadBit | Class::LoadWord | Class::Action => Some(Move::Keep),
        Class::Open => Some(Move::Begin),
        Class::Operator => Some(Move::Operate),
        Class::BitTest => Some(Move::Test),
        Class::Comparison => Some(Move::Compare),
        Class::Else => match block {
            Block::Branch(Branch::Then) => Some(Move::Turn),
            _ => None,
        },
        Class::EndIf => match block {
            Block::Branch(_) => Some(Move::Leave),
            _ => None,
        },
        Class::End(found) => match block {
            Block::Body(asked) if asked == found => Some(Move::Finish),
            _ => None,
        },
        _ => None,
    }
}
