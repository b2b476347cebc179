// Many steps.
ghost use Rattle.std.specs.Prelude.{◌≡◌, ℕ, ◌<◌, ◌≤◌, false};
ghost use Rattle.stack.specs.Entries.{entries, room, lender};
ghost use Rattle.program.specs.Machine.{ticks};
ghost use Rattle.program.specs.View.{seen, view};

use crate::cpu::Cpu;
use crate::instruction::Entry;
use crate::record::Program;
use crate::sight::Sight;
use stack::Stack;

impl Cpu {
    // Runs until the pass is over, and at most `allowance` steps, and returns how many steps it made; `is_over` then says
    // whether the pass is over. The record, the sight and the stack are the caller's and may change between two calls, so
    // they are parameters and no part of the machine.
    pub fn run(
        &mut self,
        program: &Program,
        sight: &Sight,
        stack: &mut Stack<'_, Entry>,
        allowance: u16,
    ) -> u16
        ensures ran { view self.new (entries stack.new) ≡ ticks (seen sight.now) (room stack.old) program.now.code result (view self.old (entries stack.old)) }
        ensures allowed { result ≤ allowance }
        ensures live { (k : ℕ) → k < result → (ticks (seen sight.now) (room stack.old) program.now.code k (view self.old (entries stack.old))).over ≡ false }
        ensures used { self.new.over ≡ false → result ≡ allowance }
        ensures room { room stack.new ≡ room stack.old }
        ensures lender { lender stack.new ≡ lender stack.old }
    {
        for made in 0..allowance {
            if self.over {
                return made;
            }
            self.execute(program, sight, stack);
        }
        allowance
    }
}
