// An example of a driver: a rack of four cards, each with two input and two output words. A word is silent while its card is out.
#![tactic(auto)]

pub use boards::Rack;

pub mod boards;
