// The figure and the longest chain of calls of compiled code, each by one walk from the end of the code up.
#![tactic(auto)]

ghost use Rattle.std.specs.Prelude.{◌≡◌, ℕ, ◌<◌, min, length, slice_index};
ghost use Rattle.weights.specs.Ahead.{ahead};
ghost use Rattle.weights.specs.Chains.{LongestChain};
ghost use Rattle.weights.specs.Claims.{Weighed, FiguresAgree, ChainsAgree};
ghost use Rattle.weights.specs.Weights.{steps, modules};

use program::Program;
pub use weight::Weight;

mod tally;
#[cfg(test)]
mod tests;
mod walk;
pub mod weight;

// The most steps from each place to the end of its module, held at 60,001.
pub fn figures(program: &Program) -> [u32; 2048]
    ensures each { (n : ℕ) → n < 2048 → slice_index result n ≡ min 60001 (ahead steps program.now.code n) }
    ensures whole { length result ≡ 2048 }
{
    walk::walk(program)
}

// The most modules one below the other that are called from each place to the end of its module, held at 9.
pub fn heights(program: &Program) -> [u8; 2048]
    ensures each { (n : ℕ) → n < 2048 → slice_index result n ≡ min 9 (ahead modules program.now.code n) }
    ensures whole { length result ≡ 2048 }
{
    walk::walk(program)
}

// The most steps and the most modules ahead of a place: whichever list the record is the code of, the figure and the
// longest chain of its module at that place.
pub fn weigh(program: &Program, place: u16) -> Weight
    ensures figure { result.figure ≡ min 60001 (ahead steps program.now.code place) }
    ensures chain { result.chain ≡ min 9 (ahead modules program.now.code place) }
    ensures list { Weighed program.now.code place result }
    ensures figures { FiguresAgree }
    ensures chains { ChainsAgree }
    ensures longest { LongestChain }
{
    Weight {
        figure: walk::at(&figures(program), place),
        chain: walk::at(&heights(program), place),
    }
}
