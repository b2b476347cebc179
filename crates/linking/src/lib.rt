// Linking: whether a list keeps the rules for labels, calls, levels and figures, and the record of a list that does.
#![tactic(auto)]

ghost use Rattle.std.specs.Prelude.{◌≡◌};
ghost use Rattle.linking.specs.Faults.{cause_of, layer_of, place_of, causes_to_linking};
ghost use Rattle.linking.specs.declared.LinkFault.TheVariants.{Grammar};

pub mod compiled;
pub mod figures;
mod judging;
mod parsed;

pub use compiled::{Compiled, compile};
use faults::{Fault, Layer, Place};
pub use figures::Figures;
use grammar::GrammarFault;

// Why a list is refused: it is no list of the grammar, or it breaks a rule of linking (causes 9 to 13).
#[derive(Clone, Copy, Debug, PartialEq, Eq)]
pub enum LinkFault {
    Grammar(GrammarFault),
    Repeated(Place),
    Unlinked(Place),
    Misplaced(Place),
    Clashing(Place),
    Overweight(Place),
}

impl From<GrammarFault> for LinkFault {
    ghost from_gives = { λ e r. r ≡ Grammar e };

    fn from(fault: GrammarFault) -> LinkFault {
        LinkFault::Grammar(fault)
    }
}

impl Fault for LinkFault {
    type Place = Place;

    ghost cause_of = { cause_of };

    ghost layer_of = { layer_of };

    ghost place_of = { place_of };

    ghost laws = { causes_to_linking };

    fn cause(self) -> u8 {
        match self {
            LinkFault::Grammar(e) => e.cause(),
            LinkFault::Repeated(_) => 9,
            LinkFault::Unlinked(_) => 10,
            LinkFault::Misplaced(_) => 11,
            LinkFault::Clashing(_) => 12,
            LinkFault::Overweight(_) => 13,
        }
    }

    fn layer(self) -> Layer {
        match self {
            LinkFault::Grammar(e) => e.layer(),
            _ => Layer::Linking,
        }
    }

    fn place(self) -> Place {
        match self {
            LinkFault::Grammar(e) => e.place(),
            LinkFault::Repeated(place)
            | LinkFault::Unlinked(place)
            | LinkFault::Misplaced(place)
            | LinkFault::Clashing(place)
            | LinkFault::Overweight(place) => place,
        }
    }
}
