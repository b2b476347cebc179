// A panel whose inputs are read from the lines of a tape.
#![tactic(auto)]

ghost use Rattle.std.specs.Prelude.{◌≡◌, ◌+◌, ◌/◌, ◌<◌, ◌≤◌, List, length};
ghost use Rattle.tape.specs.Faults.{cause_of, layer_of, place_of, causes_of_tapes};
ghost use Rattle.tape.specs.Format.{Entry, IsTape};
ghost use Rattle.tape.specs.Says.{first_bad, check_of};

use faults::{Fault, Layer};
use fields::{is_line, read_field};
use panel::{Panel, PanelFault, word_index};
pub use writing::write_line;

mod fields;
mod writing;

// The most bytes of a tape.
const LONGEST: usize = 65536;

// A tape, before its first line, at a line, or behind its last; and the output words. The place is a number and not an enum:
// `line` shows it so, and moving on counts it up.
#[derive(Drop)]
pub struct Tape<'a> {
    bytes: &'a [u8],
    line: usize,
    outputs: [u16; 8],
    ghost whole: { ∥ ((lines : List (List Entry)) × IsTape bytes.now lines) ∥₁ },
    ghost within: { line ≤ length bytes.now / 49 + 1 },
    ghost eight: { length outputs ≡ 8 },
}

// Why bytes are no tape: their length, or the first line that is not one (17).
#[derive(Clone, Copy, Debug, PartialEq, Eq)]
pub enum TapeFault {
    Length,
    Line(u32),
}

impl Fault for TapeFault {
    type Place = u32;

    ghost cause_of = { cause_of };

    ghost layer_of = { layer_of };

    ghost place_of = { place_of };

    ghost laws = { causes_of_tapes };

    fn cause(self) -> u8 {
        match self {
            TapeFault::Length | TapeFault::Line(_) => 17,
        }
    }

    fn layer(self) -> Layer {
        Layer::Panel
    }

    // The line that is refused, counted from 1, or 0 for the length: messages print it so.
    fn place(self) -> u32 {
        match self {
            TapeFault::Length => 0,
            TapeFault::Line(line) => line,
        }
    }
}

// The first bad line of a tape of whole lines, counted from 1.
fn first_bad_line(bytes: &[u8]) -> Option<u32>
    requires { length bytes.now ≤ 65536 }
    ensures { result ≡ first_bad 0 (length bytes.now / 49) bytes.now }
{
    let index = bytes.chunks_exact(49).position(|line| !is_line(line))?;
    Some(index as u32 + 1)
}

// Whether bytes are a tape.
fn check(bytes: &[u8]) -> Result<(), TapeFault>
    ensures { result ≡ check_of bytes.now }
{
    if bytes.len() > LONGEST || bytes.len() % 49 != 0 {
        return Err(TapeFault::Length);
    }
    first_bad_line(bytes).map_or(Ok(()), |line| Err(TapeFault::Line(line)))
}

impl<'a> Tape<'a> {
    ghost use Rattle.tape.specs.Says.{opened, moved};
    ghost use Rattle.tape.specs.Tape.{shown, state};
    ghost use Rattle.tape.specs.Verdict.{OneVerdict, EveryTapePlays};

    // A tape before its first line. The bytes are borrowed, not copied.
    pub fn new(bytes: &'a [u8]) -> Result<Tape<'a>, TapeFault>
        ensures answer { shown result ≡ opened bytes.now }
        ensures verdict { OneVerdict bytes.now }
        ensures plays { EveryTapePlays bytes.now }
    {
        check(bytes)?;
        Ok(Tape {
            bytes,
            line: 0,
            outputs: [0; 8],
        })
    }

    // How many lines there are.
    pub fn lines(&self) -> usize
        ensures { result ≡ length (state self.now).bytes / 49 }
    {
        self.bytes.len() / 49
    }

    // The line that it stands at, counted from 1; 0 before the first, one more than there are behind the last.
    pub fn line(&self) -> usize
        ensures { result ≡ (state self.now).at }
    {
        self.line
    }

    // The output words.
    pub fn outputs(&self) -> &[u16; 8]
        ensures { result.now ≡ (state self.now).outputs }
    {
        &self.outputs
    }

    // Moves it a line on, up to behind the last.
    pub fn move_on(&mut self)
        ensures { state self.new ≡ moved (state self.old) }
    {
        if self.line <= self.lines() {
            self.line += 1;
        }
    }
}

impl Tape<'_> {
    ghost use Rattle.std.specs.Prelude.{slice_index_or};
    ghost use Rattle.tape.specs.Format.{silent};
    ghost use Rattle.tape.specs.Says.{said};
    ghost use Rattle.tape.specs.Writing.{entry_from};

    // What a field of the line says that the tape stands at: nothing for a dash, and at both ends.
    fn field(&self, word: usize) -> Option<u16>
        requires { word < 8 }
        ensures { entry_from result ≡ slice_index_or (said self.now.bytes.now self.now.line) word silent }
    {
        let at = 49 * self.line.checked_sub(1)?;
        let line = self.bytes.get(at..at + 49)?;
        read_field(&line[6 * word..6 * word + 6]).ok().flatten()
    }
}

impl Panel for Tape<'_> {
    ghost use Rattle.tape.specs.Tape.{tape_meaning, tape_rest, sized_tape};

    ghost meaning = { tape_meaning };

    ghost rest = { tape_rest };

    ghost sized = { sized_tape };

    fn read(&mut self, word: u8) -> Result<u16, PanelFault> {
        let at = word_index(word)?;
        self.field(at).ok_or(PanelFault::Silent(word))
    }

    fn put(&mut self, word: u8, value: u16) -> Result<(), PanelFault> {
        let at = word_index(word)?;
        self.outputs[at] = value;
        Ok(())
    }
}
