// What a record shows, and the record of two empty modules.
ghost use Rattle.std.specs.Prelude.{◌≡◌};
ghost use Rattle.linking.specs.Verdict.{Verdict, OneVerdict};
ghost use Rattle.linking.specs.Records.{RecordOf, two_empty};
ghost use Rattle.linking.specs.Passes.{RecordAfter, RunsAsWritten};

use crate::LinkFault;
use crate::compiled::Compiled;
use crate::figures::Figures;
use crate::judging::link;
use program::Program;
use program::instruction::Instruction;

impl Compiled {
    // The record of :001 J1 :000 J0.
    pub fn empty() -> Compiled
        ensures recorded { RecordOf two_empty result.program result.figures }
    {
        let mut program = Program::empty();
        program.load(&[Instruction::Return; 3], 0, 1).unwrap();
        Compiled {
            program,
            figures: Figures { quick: 1, slow: 1 },
        }
    }

    // The program of the list.
    pub fn program(&self) -> &Program
        ensures { result.now ≡ self.now.program }
    {
        &self.program
    }

    // The most steps of a pass of each level.
    pub fn figures(&self) -> Figures
        ensures { result ≡ self.now.figures }
    {
        self.figures
    }
}

// Compiles a list: its figures, or its fault. The record at exit is that of the list, and after a refusal that of two empty
// modules.
pub fn compile(text: &[u8], into: &mut Compiled) -> Result<Figures, LinkFault>
    ensures verdict { Verdict text.now result }
    ensures one { OneVerdict text.now }
    ensures recorded { RecordAfter text.now result into.new }
    ensures passes { RunsAsWritten }
{
    *into = Compiled::empty();
    *into = link(text)?;
    Ok(into.figures)
}
