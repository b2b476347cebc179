// A stack of entries over slots that the caller lends, and gets back.
#![tactic(auto)]

pub use stacks::{Full, Stack};

pub mod stacks;
