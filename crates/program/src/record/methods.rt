ghost use Rattle.std.specs.Prelude.{◌≡◌, ◌-◌, ◌≤◌, [], ◌∷◌, ◌++◌, length, replicate, is_ok, OnOk, OnErr};
ghost use Rattle.program.specs.Sound.{sound, padded};
ghost use Rattle.program.specs.declared.instruction.Instruction.TheVariants.{Return};

use crate::instruction::Instruction;
use crate::record::{Program, Unsound, checks};

// Writes the instructions, and `Return` at each place behind them.
fn fill(slots: &mut [Instruction], code: &[Instruction])
    requires { length code.now ≤ length slots.old }
    ensures answer { slots.new ≡ code.now ++ replicate (length slots.old - length code.now) Return }
{
    let (used, unused) = slots.split_at_mut(code.len());
    used.copy_from_slice(code);
    unused.fill(Instruction::Return);
}

impl Program {
    // Two modules of nothing but their end, :001 at the first place and :000 at the second.
    pub fn empty() -> Program
        ensures code { result.code ≡ padded (Return ∷ Return ∷ []) }
        ensures len { result.len ≡ 2 }
        ensures quick { result.quick ≡ 0 }
        ensures slow { result.slow ≡ 1 }
    {
        Program {
            code: [Instruction::Return; 2048],
            len: 2,
            quick: 0,
            slow: 1,
        }
    }

    // Takes the code if it is sound; else nothing changes.
    pub fn load(&mut self, code: &[Instruction], quick: u16, slow: u16) -> Result<(), Unsound>
        ensures answer { is_ok result ≡ sound code.now quick slow }
        ensures code { OnOk result (self.new.code ≡ padded code.now) }
        ensures len { OnOk result (self.new.len ≡ length code.now) }
        ensures quick { OnOk result (self.new.quick ≡ quick) }
        ensures slow { OnOk result (self.new.slow ≡ slow) }
        ensures refused { OnErr result (self.new ≡ self.old) }
    {
        if !checks::is_sound(code, quick, slow) {
            return Err(Unsound);
        }
        fill(&mut self.code, code);
        self.len = code.len() as u16;
        self.quick = quick;
        self.slow = slow;
        Ok(())
    }
}
