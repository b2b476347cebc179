// Samples of the language with their answers: a proved table, and longer tables as tests.
#![tactic(auto)]

ghost use Rattle.acceptance.specs.Samples.{Samples};

#[cfg(test)]
mod shapes;
#[cfg(test)]
mod values;
#[cfg(test)]
mod verdict;
#[cfg(test)]
mod verdicts;

// The table of samples stands: that is the promise, and there is no result.
pub fn samples_stand()
    ensures { Samples }
{}
