ghost use Rattle.linking.specs.Records.{OfSomeText};

use crate::figures::Figures;
use program::Program;

mod methods;

pub use methods::compile;

// The record of a list that is accepted: its program and its figures. There is no other.
#[derive(Drop)]
pub struct Compiled {
    pub(crate) program: Program,
    pub(crate) figures: Figures,
    ghost compiled: { ∥ OfSomeText program figures ∥₁ },
}
