// Whether code is sound.
ghost use Rattle.std.specs.Prelude.{◌≡◌, ◌+◌, ◌<◌, ◌≤◌, Bool, length};
ghost use Rattle.program.specs.Sound.{known, known_bit, known_word, known_source, known_check, stored_area, stored_word};
ghost use Rattle.program.specs.Sound.{inside, skipped, ends, unbroken, fine, all_fine, sound, area_size};

use crate::instruction::{Check, Instruction, Source};
use tokens::{Area, BitCell, WordCell};

// How many bytes an area has.
fn area_size(area: Area) -> u8
    ensures answer { result ≡ area_size area }
{
    match area {
        Area::Input | Area::Output | Area::Change => 16,
        Area::Internal => 128,
    }
}

// A part of an instruction that names cells, or an instruction.
trait NamesCells: Copy {
    ghost known: { Self → Bool };

    // Whether each cell named is one that there is, and, in an instruction that stores, one that a value can be stored in.
    fn is_known(self) -> bool
        ensures { result ≡ known self };
}

impl NamesCells for BitCell {
    ghost known = { known_bit };

    fn is_known(self) -> bool {
        self.byte < area_size(self.area) && self.bit < 8
    }
}

impl NamesCells for WordCell {
    ghost known = { known_word };

    fn is_known(self) -> bool {
        match self {
            WordCell::Pair(area, byte) => byte < area_size(area) && byte % 2 == 0,
            WordCell::Timer(timer) => timer < 20,
        }
    }
}

impl NamesCells for Source {
    ghost known = { known_source };

    fn is_known(self) -> bool {
        match self {
            Source::Number(_) => true,
            Source::Bit(cell, _) => cell.is_known(),
            Source::Word(cell, _) => cell.is_known(),
        }
    }
}

impl NamesCells for Check {
    ghost known = { known_check };

    fn is_known(self) -> bool {
        match self {
            Check::Bit(cell, _) => cell.is_known(),
            Check::Compare(_, source) => source.is_known(),
        }
    }
}

impl NamesCells for Instruction {
    ghost known = { known };

    fn is_known(self) -> bool {
        match self {
            Instruction::Load(source) | Instruction::Apply(_, source) => source.is_known(),
            Instruction::StoreBit(cell, _) | Instruction::Switch(cell, _) => {
                cell.is_known() && is_stored_area(cell.area)
            }
            Instruction::StoreWord(cell, _) => cell.is_known() && is_stored_word(cell),
            Instruction::Test(check, _) => check.is_known(),
            Instruction::Return
            | Instruction::Open(_)
            | Instruction::Close
            | Instruction::Skip(_)
            | Instruction::Call(_) => true,
        }
    }
}

fn is_stored_area(area: Area) -> bool
    ensures answer { result ≡ stored_area area }
{
    matches!(area, Area::Output | Area::Internal)
}

fn is_stored_word(cell: WordCell) -> bool
    ensures answer { result ≡ stored_word cell }
{
    match cell {
        WordCell::Pair(area, _) => is_stored_area(area),
        WordCell::Timer(_) => true,
    }
}

// Whether each place that the instruction at `at` can lead to lies behind it and below `len`, the length of the code; a
// return leads to none.
fn is_inside(len: usize, at: usize, instruction: Instruction) -> bool
    requires { at < 2048 }
    ensures answer { result ≡ inside len at instruction }
{
    match instruction {
        Instruction::Return => true,
        Instruction::Test(_, by) | Instruction::Skip(by) => at + 1 + (by as usize) < len,
        Instruction::Call(to) => at < to as usize && (to as usize) < len,
        Instruction::Load(_)
        | Instruction::Apply(_, _)
        | Instruction::Open(_)
        | Instruction::Close
        | Instruction::StoreBit(_, _)
        | Instruction::StoreWord(_, _)
        | Instruction::Switch(_, _) => at + 1 < len,
    }
}

// How many instructions the given one may pass over.
fn skipped(instruction: Instruction) -> u16
    ensures answer { result ≡ skipped instruction }
{
    match instruction {
        Instruction::Test(_, by) | Instruction::Skip(by) => by,
        _ => 0,
    }
}

fn ends(instruction: Instruction) -> bool
    ensures answer { result ≡ ends instruction }
{
    matches!(instruction, Instruction::Return)
}

// Whether no module ends among `count` instructions.
fn is_unbroken(code: &[Instruction], from: usize, count: usize) -> bool
    requires { from + count ≤ length code.now }
    ensures answer { result ≡ unbroken code.now from count }
{
    code[from..from + count].iter().all(|next| !ends(*next))
}

// Whether the instruction at a place may stand there.
fn is_fine(code: &[Instruction], at: usize) -> bool
    requires short { length code.now ≤ 2048 }
    requires inside { at < length code.now }
    ensures answer { result ≡ fine code.now (length code.now) at }
{
    let instruction = code[at];
    instruction.is_known()
        && is_inside(code.len(), at, instruction)
        && is_unbroken(code, at + 1, skipped(instruction) as usize)
}

fn are_all_fine(code: &[Instruction]) -> bool
    requires { length code.now ≤ 2048 }
    ensures answer { result ≡ all_fine code.now (length code.now) (length code.now) }
{
    (0..code.len()).all(|at| is_fine(code, at))
}

pub(super) fn is_sound(code: &[Instruction], quick: u16, slow: u16) -> bool
    ensures answer { result ≡ sound code.now quick slow }
{
    code.len() <= 2048
        && (quick as usize) < code.len()
        && (slow as usize) < code.len()
        && are_all_fine(code)
}
