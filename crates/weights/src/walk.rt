// The walk over the code.
ghost use Rattle.std.specs.Prelude.{◌≡◌, ◌<◌, get_or, slice_index_or};
ghost use Rattle.program.specs.declared.instruction.Instruction.TheVariants.{Return};
ghost use Rattle.weights.specs.Ahead.{ahead_of, aheads};

use crate::tally::Tally;
use program::Program;
use program::instruction::Instruction;

// What lies ahead of a place, by the table.
pub(crate) fn at<T: Tally>(table: &[T], place: u16) -> T
    ensures { result ≡ slice_index_or table.now place T.Tally.rule.ends }
{
    table.get(place as usize).copied().unwrap_or(T::end())
}

// What lies ahead of a place, where the table has what lies ahead of the places behind it.
fn ahead<T: Tally>(program: &Program, place: u16, table: &[T]) -> T
    requires { place < 2048 }
    ensures { result ≡ ahead_of T.Tally.rule place (slice_index_or program.now.code place Return) (λ p. get_or table.now p T.Tally.rule.ends) }
{
    match program.fetch(place) {
        Instruction::Return => T::end(),
        Instruction::Test(_, skip) => at(table, place + 1).test(at(table, place + 1 + skip)),
        Instruction::Skip(by) => at(table, place + 1 + by).go(),
        Instruction::Call(to) => at(table, to).call(at(table, place + 1)),
        Instruction::Load(_)
        | Instruction::Apply(_, _)
        | Instruction::Open(_)
        | Instruction::Close
        | Instruction::StoreBit(_, _)
        | Instruction::StoreWord(_, _)
        | Instruction::Switch(_, _) => at(table, place + 1).go(),
    }
}

// What lies ahead of each place, from the end of the code up. By place and not by slot: each value is made from values
// anywhere behind it. The table is an array, since this crate has no heap.
pub(crate) fn walk<T: Tally>(program: &Program) -> [T; 2048]
    ensures { result ≡ aheads T.Tally.rule 0 program.now.code }
{
    let mut table = [T::end(); 2048];
    for place in (0..2048u16).rev() {
        table[place as usize] = ahead(program, place, &table);
    }
    table
}
