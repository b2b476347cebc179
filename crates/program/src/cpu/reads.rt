// What is read of the machine.
ghost use Rattle.std.specs.Prelude.{◌≡◌, false, if◌then◌else◌, Some, None, nat_lt, slice_index, slice_index_or};
ghost use Rattle.program.specs.View.{fresh};

use crate::cpu::Cpu;

impl Cpu {
    // The machine before its first step: OP is 0, and nothing is stored yet.
    pub fn new(bytes: [u8; 144], timers: [u16; 20], place: u16) -> Cpu
        ensures answer { result ≡ fresh bytes timers place }
    {
        Cpu {
            op: 0,
            bytes,
            timers,
            stored: [false; 144],
            place,
            over: false,
        }
    }

    pub fn op(&self) -> u16
        ensures answer { result ≡ self.now.op }
    {
        self.op
    }

    // The place of the next instruction.
    pub fn place(&self) -> u16
        ensures answer { result ≡ self.now.place }
    {
        self.place
    }

    // Whether the pass has ended.
    pub fn is_over(&self) -> bool
        ensures answer { result ≡ self.now.over }
    {
        self.over
    }

    // Byte i of the 144.
    pub fn byte(&self, i: u8) -> Option<u8>
        ensures answer { result ≡ (if nat_lt i 144 then Some (slice_index self.now.bytes i) else None) }
    {
        self.bytes.get(i as usize).copied()
    }

    pub fn timer(&self, i: u8) -> Option<u16>
        ensures answer { result ≡ (if nat_lt i 20 then Some (slice_index self.now.timers i) else None) }
    {
        self.timers.get(i as usize).copied()
    }

    // Whether the pass has stored into byte i of the 144.
    pub fn is_stored(&self, i: u8) -> Option<bool>
        ensures answer { result ≡ (if nat_lt i 144 then Some (slice_index_or self.now.stored i false) else None) }
    {
        self.stored.get(i as usize).copied()
    }
}
