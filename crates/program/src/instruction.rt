// The instructions: each is one step.
use tokens::{BitCell, Comparison, Operator, WordCell};

// What a load, an operator or a comparison takes. The flag of a cell says that its value is inverted.
#[derive(Clone, Copy, Debug, PartialEq, Eq)]
pub enum Source {
    Number(u16),
    Bit(BitCell, bool),
    Word(WordCell, bool),
}

// What a condition asks: a bit, tested for 0 where the flag is set, or OP compared with a value.
#[derive(Clone, Copy, Debug, PartialEq, Eq)]
pub enum Check {
    Bit(BitCell, bool),
    Compare(Comparison, Source),
}

// `Return` ends a module: `R`, `J0` or `J1`. `Open` has the operator before the bracket, if there is one: it takes the
// saved OP and the value of the bracket, which else becomes OP. A test that fails and a skip pass over as many
// instructions as they say.
#[derive(Clone, Copy, Debug, PartialEq, Eq)]
pub enum Instruction {
    Return,
    Load(Source),
    Apply(Operator, Source),
    Open(Option<Operator>),
    Close,
    StoreBit(BitCell, bool),
    StoreWord(WordCell, bool),
    Switch(BitCell, bool),
    Test(Check, u16),
    Skip(u16),
    Call(u16),
}

// What lies on the stack: a place to go back to, or OP as it was saved at a bracket, with the operator before it.
#[derive(Clone, Copy, Debug, PartialEq, Eq)]
pub enum Entry {
    Back(u16),
    Saved(u16, Option<Operator>),
}
