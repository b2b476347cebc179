// What the programs share: the lines of a list, how they are shown, faults in plain words, and files step by step.
#![tactic(auto)]

pub mod excerpt;
pub mod files;
pub mod lines;
pub mod location;
pub mod refusal;
pub mod words;
