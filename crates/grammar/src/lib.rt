// The grammar of the list language: whether a text is a list of modules, and where not, the first fault.
#![tactic(auto)]

ghost use Rattle.std.specs.Prelude.{◌≡◌, ◌≤◌, map, length};
ghost use Rattle.scanning.specs.Text.{longest, start, walk};
ghost use Rattle.reading.specs.Items.{item};
ghost use Rattle.grammar.specs.Parsing.{Parsed};
ghost use Rattle.grammar.specs.Faults.{cause_of, layer_of, place_of, causes_to_grammar};
ghost use Rattle.grammar.specs.Grammar.{OneTree};
ghost use Rattle.grammar.specs.Limits.{StackSuffices};
ghost use Rattle.grammar.specs.Depth.{LimitsAgree};
ghost use Rattle.grammar.specs.Verdict.{Verdict, OneVerdict, MemoryAfter, end_place};
ghost use Rattle.grammar.specs.declared.GrammarFault.TheVariants.{Reading};

mod parser;
mod table;

use crate::parser::Parser;
use crate::table::{Branch, Want, move_of};
use faults::{Fault, Layer, Place};
use reading::{Placed, ReadFault, read};

// Why a text is refused: it cannot be read, a token or the text's end has no place in the grammar (cause 7), or brackets,
// conditions or modules are too many (cause 8).
#[derive(Clone, Copy, Debug, PartialEq, Eq)]
pub enum GrammarFault {
    Reading(ReadFault),
    Unexpected(Place),
    TooDeep(Place),
}

// How large a text is.
#[derive(Clone, Copy, Debug, PartialEq, Eq)]
pub struct Shape {
    pub tokens: usize,
    pub modules: usize,
}

impl From<ReadFault> for GrammarFault {
    ghost from_gives = { λ e r. r ≡ Reading e };

    fn from(fault: ReadFault) -> GrammarFault {
        GrammarFault::Reading(fault)
    }
}

impl Fault for GrammarFault {
    type Place = Place;

    ghost cause_of = { cause_of };

    ghost layer_of = { layer_of };

    ghost place_of = { place_of };

    ghost laws = { causes_to_grammar };

    fn cause(self) -> u8 {
        match self {
            GrammarFault::Reading(e) => e.cause(),
            GrammarFault::Unexpected(_) => 7,
            GrammarFault::TooDeep(_) => 8,
        }
    }

    fn layer(self) -> Layer {
        match self {
            GrammarFault::Reading(e) => e.layer(),
            GrammarFault::Unexpected(_) | GrammarFault::TooDeep(_) => Layer::Grammar,
        }
    }

    fn place(self) -> Place {
        match self {
            GrammarFault::Reading(e) => e.place(),
            GrammarFault::Unexpected(place) | GrammarFault::TooDeep(place) => place,
        }
    }
}

// The place behind a text's last byte. `scanning` goes past a byte in the same way; one public call for both could ask nothing
// of the place, and would have to hold its numbers.
#[tactic(auto, using(crate::proofs::Ends::walk_more))]
fn end_of(text: &[u8]) -> Place
    requires { length text.now ≤ longest }
    ensures { result ≡ walk start text.now }
{
    let mut place = Place { line: 1, column: 1 };
    for b in text {
        if *b == b'\n' {
            place = Place {
                line: place.line + 1,
                column: 1,
            };
        } else {
            place.column += 1;
        }
    }
    place
}

// The place behind the last byte of a text that is not too long.
pub fn place_behind(text: &[u8]) -> Option<Place>
    ensures { result ≡ end_place text.now }
{
    (text.len() <= 16384).then(|| end_of(text))
}

// Goes through the tokens of a text: the parser behind the last of them, or the first fault. The slots take the open
// conditions.
fn parse_tokens<'m>(
    tokens: &[Placed],
    slots: &'m mut [Branch; 16],
) -> Result<Parser<'m>, GrammarFault>
    ensures { Parsed (map item tokens.now) result }
{
    let mut parser = Parser::new(slots);
    for &Placed { token, place } in tokens {
        let step = move_of(parser.due(), &token).ok_or(GrammarFault::Unexpected(place))?;
        parser
            .apply(step)
            .map_err(|_| GrammarFault::TooDeep(place))?;
    }
    Ok(parser)
}

// Whether a text is a list of modules within the limits, and how large it is; where not, its fault. Its tokens stand at the
// front of `memory`, in their order, unless it cannot be read. The memory is handed over, since this crate has no heap.
#[tactic(auto, using(crate::proofs::Whole::theorems))]
pub fn parse<'a>(text: &'a [u8], memory: &mut [Placed<'a>; 2048]) -> Result<Shape, GrammarFault>
    ensures verdict { Verdict text.now result }
    ensures one { OneVerdict text.now }
    ensures tree { OneTree }
    ensures limits { LimitsAgree }
    ensures stack { StackSuffices }
    ensures memory { MemoryAfter text.now memory.new memory.old }
    ensures size { length memory.new ≡ 2048 }
{
    let tokens = read(text, memory)?;
    let mut slots = [Branch::Then; 16];
    let parser = parse_tokens(&memory[..tokens], &mut slots)?;
    match parser.due() {
        Want::Modules => Ok(Shape {
            tokens,
            modules: parser.modules(),
        }),
        _ => Err(GrammarFault::Unexpected(end_of(text))),
    }
}
