mod cells;
mod reads;
mod runs;
mod steps;

// The machine between two steps, without its stack: OP, the 144 bytes (F 0 to 127, then the Y bytes), the timers, for
// each byte whether the pass has stored into it, and the place of the next instruction. The marks are an array of their
// own: the bytes come as one array, and two adjoining bytes are read as a word. `over` is a flag beside the place and not
// an Option of it: a pass that has ended still says where.
#[derive(Drop)]
pub struct Cpu {
    op: u16,
    bytes: [u8; 144],
    timers: [u16; 20],
    stored: [bool; 144],
    place: u16,
    over: bool,
}
