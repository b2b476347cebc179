// Samples of linking with their answers: a proved table, and longer tables as tests.
#![tactic(auto)]

ghost use Rattle.linking_samples.specs.Samples.{LinkedSamples};

#[cfg(test)]
mod links;

// The table of samples stands: that is the promise, and there is no result.
pub fn samples_stand()
    ensures { LinkedSamples }
{}
