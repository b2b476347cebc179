// Shows passes of a list step by step.
ghost use Rattle.std.specs.Prelude.{◌≡◌, length};

use crate::commands::{Written, commands_of};
use crate::words::LinkWords;
use grammar::{Shape, parse};
use linking::{Compiled, LinkFault, compile};
use program::instruction::{Entry, Instruction};
use program::{Cpu, Program, Sight};
use reading::Placed;
use reporting::files::Source;
use reporting::refusal::report;
use stack::Stack;
use std::{fmt, io};
use tokens::{Area, BitCell, WordCell};

// The most steps that a pass of an accepted list takes.
const MOST: u32 = 60000;

// A byte of Y or F; those of F stand first among the 144.
fn byte_of(cpu: &Cpu, area: Area, byte: u8) -> u8 {
    let index = match area {
        Area::Output => 128u8.saturating_add(byte),
        _ => byte,
    };
    cpu.byte(index).unwrap_or(0)
}

// What a bit cell holds. Not by the reads of `Cpu`, which require that there is such a cell: this and `word_value` are for
// printing, and ask nothing. The remainder changes no bit of a list: by it the shift fits.
fn bit_value(cpu: &Cpu, cell: BitCell) -> u8 {
    (byte_of(cpu, cell.area, cell.byte) >> (cell.bit % 8)) % 2
}

// What a word cell holds.
fn word_value(cpu: &Cpu, cell: WordCell) -> u16 {
    match cell {
        WordCell::Timer(timer) => cpu.timer(timer).unwrap_or(0),
        WordCell::Pair(area, low) => {
            let high = low.saturating_add(1);
            u16::from_le_bytes([byte_of(cpu, area, low), byte_of(cpu, area, high)])
        }
    }
}

// What an instruction that was just made has stored; nothing where it is no store.
#[derive(Drop)]
struct Stored<'a> {
    cpu: &'a Cpu,
    instruction: Instruction,
}

impl<'a> fmt::Display for Stored<'a> {
    fn fmt<W: fmt::Write>(&self, f: &mut fmt::Formatter<W>) -> fmt::Result {
        match self.instruction {
            Instruction::StoreBit(cell, _) | Instruction::Switch(cell, _) => {
                write!(f, "  {cell} = {}", bit_value(self.cpu, cell))
            }
            Instruction::StoreWord(cell, _) => {
                write!(f, "  {cell} = {}", word_value(self.cpu, cell))
            }
            _ => Ok(()),
        }
    }
}

// A step that was just made, with its command where there is one.
fn show_step(
    rt: &impl Print,
    step: u32,
    command: Option<&Written>,
    cpu: &Cpu,
    instruction: Instruction,
) -> io::Result<()> {
    let op = cpu.op();
    let stored = Stored { cpu, instruction };
    match command {
        Some(Written { words, place }) => {
            println!(rt;
                "{step:>6}  {:>4}:{:<3}  {words:<14}  OP {op:>5}{stored}",
                place.line, place.column
            )
        }
        None => println!(rt; "{step:>6}  OP {op:>5}{stored}"),
    }
}

// A pass from a place of the program, with all cells 0.
fn show_pass(
    rt: &impl Print,
    program: &Program,
    commands: &[Written],
    place: u16,
) -> io::Result<()> {
    let sight = Sight::default();
    let mut slots = [Entry::Back(0); 16];
    let mut stack = Stack::new(&mut slots);
    let mut cpu = Cpu::new([0; 144], [0; 20], place);
    for step in 1..=MOST {
        if cpu.is_over() {
            break;
        }
        let at = cpu.place();
        let instruction = program.fetch(at);
        cpu.step(program, &sight, &mut stack);
        show_step(rt, step, commands.get(at as usize), &cpu, instruction)?;
    }
    Ok(())
}

// Both passes of an accepted list, of which the tokens are given too.
fn show_passes(
    rt: &(impl Print + AllocGlobal),
    name: &str,
    tokens: &[Placed],
    compiled: &Compiled,
) -> io::Result<()> {
    let commands = commands_of(rt.alloc(), tokens)?;
    let program = compiled.program();
    let figures = compiled.figures();
    println!(rt; "{name}: a pass of :001, at most {} steps", figures.quick)?;
    show_pass(rt, program, &commands, program.quick())?;
    println!(rt; "{name}: a pass of :000, at most {} steps", figures.slow)?;
    show_pass(rt, program, &commands, program.slow())
}

// Compiles a list, and keeps its tokens too.
fn compile_with_tokens<'a>(
    text: &'a [u8],
    compiled: &mut Compiled,
    memory: &mut [Placed<'a>; 2048],
) -> Result<Shape, LinkFault>
    ensures size { length memory.new ≡ 2048 }
{
    compile(text, compiled)?;
    Ok(parse(text, memory)?)
}

// Shows a list's passes; whether it is accepted.
pub(crate) fn show_list(rt: &(impl Print + AllocGlobal), list: Source<'_>) -> io::Result<bool> {
    let Source { name, bytes: text } = list;
    let mut compiled = Compiled::empty();
    let mut memory = [Placed::blank(); 2048];
    match compile_with_tokens(text, &mut compiled, &mut memory) {
        Ok(shape) => {
            let count = shape.tokens.min(2048);
            show_passes(rt, name, &memory[..count], &compiled)?;
            Ok(true)
        }
        Err(fault) => {
            report(rt, list, fault, &LinkWords { text, fault })?;
            Ok(false)
        }
    }
}
