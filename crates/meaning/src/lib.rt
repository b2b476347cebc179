// What a list means, step by step, and passes of compiled lists that do what the list means.
#![tactic(auto)]

ghost use Rattle.meaning.specs.Example.{ExamplesStand};

pub use pass::Pass;
pub use passes::run_pass;

pub mod pass;
pub mod passes;

// The worked examples stand (figures, trails, code and places): that is the promise, and there is no result.
pub fn examples_stand()
    ensures { ExamplesStand }
{}
