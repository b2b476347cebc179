// Runs passes.
ghost use Rattle.program.specs.View.{seen};
ghost use Rattle.meaning.specs.Claims.{RunsAsMeant, WithinFigure, DepthByChain, Shallow};
ghost use Rattle.meaning.specs.Passes.{beginning, AsMeant};

use crate::pass::Pass;
use program::instruction::Entry;
use program::{Cpu, Program, Sight};
use stack::Stack;

// Begins a pass at a place of the record and makes at most `allowance` steps of it: whichever list the record is the code
// of, these are the first steps of the trail that the list means.
pub fn run_pass(
    program: &Program,
    place: u16,
    sight: &Sight,
    bytes: [u8; 144],
    timers: [u16; 20],
    allowance: u16,
) -> Pass
    ensures meant { AsMeant program.now.code place (seen sight.now) (beginning bytes timers) allowance result }
    ensures trail { RunsAsMeant }
    ensures figure { WithinFigure }
    ensures depth { DepthByChain }
    ensures shallow { Shallow }
{
    let mut slots = [Entry::Back(0); 16];
    let mut stack = Stack::new(&mut slots);
    let mut cpu = Cpu::new(bytes, timers, place);
    let steps = cpu.run(program, sight, &mut stack, allowance);
    Pass { cpu, steps }
}
