// What is read of the record.
ghost use Rattle.std.specs.Prelude.{◌≡◌, ◌<◌, ◌≤◌, true, slice_index_or};
ghost use Rattle.program.specs.Sound.{known, inside};
ghost use Rattle.program.specs.declared.instruction.Instruction.TheVariants.{Return};

use crate::instruction::Instruction;
use crate::record::Program;

impl Program {
    // The instruction at a place, and `Return` behind the last.
    pub fn fetch(&self, at: u16) -> Instruction
        ensures read { result ≡ slice_index_or self.now.code at Return }
        ensures known { known result ≡ true }
        ensures inside { inside self.now.len at result ≡ true }
    {
        self.code
            .get(at as usize)
            .copied()
            .unwrap_or(Instruction::Return)
    }

    // How many instructions there are.
    pub fn len(&self) -> u16
        ensures answer { result ≡ self.now.len }
        ensures within { result ≤ 2048 }
    {
        self.len
    }

    // The place that :001 starts at.
    pub fn quick(&self) -> u16
        ensures answer { result ≡ self.now.quick }
        ensures inside { result < self.now.len }
    {
        self.quick
    }

    // The place that :000 starts at.
    pub fn slow(&self) -> u16
        ensures answer { result ≡ self.now.slow }
        ensures inside { result < self.now.len }
    {
        self.slow
    }
}
