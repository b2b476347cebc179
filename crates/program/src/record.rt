ghost use Rattle.std.specs.Prelude.{◌≡◌, ℕ, ◌<◌, ◌≤◌, true, length};
ghost use Rattle.program.specs.Sound.{fine};

use crate::instruction::Instruction;

mod checks;
mod methods;
mod reads;

// A compiled list: its instructions with `Return` at each place behind them, and the places that :001 and :000 start at.
// Each instruction may stand where it stands. An array with a length beside it and not a Vec: this crate has no heap.
#[derive(Drop)]
pub struct Program {
    code: [Instruction; 2048],
    len: u16,
    quick: u16,
    slow: u16,
    ghost whole: { length code ≡ 2048 },
    ghost within: { len ≤ 2048 },
    ghost quick_inside: { quick < len },
    ghost slow_inside: { slow < len },
    ghost sound: { (n : ℕ) → fine code len n ≡ true },
}

// The code is not sound.
#[derive(Clone, Copy, Debug, PartialEq, Eq)]
pub struct Unsound;
