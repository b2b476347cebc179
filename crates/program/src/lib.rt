// The instructions that a list is compiled to, one for each step, and the machine that runs them.
#![tactic(auto)]

pub use cpu::Cpu;
pub use record::{Program, Unsound};
pub use sight::Sight;

pub mod cpu;
pub mod instruction;
pub mod record;
pub mod sight;
mod values;
