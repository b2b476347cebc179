// A pass of a compiled list, run for a while.
use program::Cpu;

// The machine behind the steps made, which says whether the pass is over, and how many there were.
#[derive(Drop)]
pub struct Pass {
    pub cpu: Cpu,
    pub steps: u16,
}
