// What every fault names: its cause by number, the layer that refuses, and its place.
#![tactic(auto)]

ghost use Rattle.std.specs.Prelude.{◌≡◌, ℕ};
ghost use Rattle.faults.specs.Layers.{layer_name, CauseOfItsLayer};

use std::fmt;

// A place in a text: line and column count from 1, a column is a byte. A text that is too long has the place 0, 0.
#[derive(Clone, Copy, Debug, PartialEq, Eq)]
pub struct Place {
    pub line: u32,
    pub column: u32,
}

// The layers that refuse, in the order in which data passes through them.
#[derive(Clone, Copy, Debug, PartialEq, Eq)]
pub enum Layer {
    Reading,
    Grammar,
    Linking,
    Controller,
    Panel,
}

impl Layer {
    // The layer's name, as messages print it.
    pub fn name(self) -> &'static str
        ensures { result.now ≡ layer_name self }
    {
        match self {
            Layer::Reading => "reading",
            Layer::Grammar => "grammar",
            Layer::Linking => "linking",
            Layer::Controller => "controller",
            Layer::Panel => "panel",
        }
    }
}

// Prints a place as LINE:COLUMN.
impl fmt::Display for Place {
    ghost use Rattle.std.specs.Prelude.{Some};
    ghost use Rattle.faults.specs.Places.{place_text};

    ghost output = { λ p. Some (place_text p) };

    fn fmt<W: fmt::Write>(&self, f: &mut fmt::Formatter<W>) -> fmt::Result {
        write!(f, "{}:{}", self.line, self.column)
    }
}

impl fmt::Display for Layer {
    ghost use Rattle.std.specs.Prelude.{Some};

    ghost output = { λ l. Some (layer_name l) };

    fn fmt<W: fmt::Write>(&self, f: &mut fmt::Formatter<W>) -> fmt::Result {
        f.write_str(self.name())
    }
}

// Why something is refused. What a place is depends on the layer: a place in a text, a word of a panel, a line of a tape.
pub trait Fault: Copy {
    ghost use Rattle.faults.specs.declared.Layer.{Layer};

    type Place: fmt::Display + Copy;

    ghost cause_of: { Self → ℕ };

    ghost layer_of: { Self → Layer };

    ghost place_of: { Self → Self.Place };

    // The cause's number.
    fn cause(self) -> u8
        ensures { result ≡ cause_of self };

    // The layer that refuses.
    fn layer(self) -> Layer
        ensures { result ≡ layer_of self };

    // Where the fault stands.
    fn place(self) -> Self::Place
        ensures { result ≡ place_of self };

    // No layer refuses by a cause of another.
    ghost laws: { CauseOfItsLayer cause_of layer_of };
}
