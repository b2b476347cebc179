// What a pass sees and does not change: the words of inputs, and those of the opening before.
#[derive(Clone, Copy, Default)]
pub struct Sight {
    pub inputs: [u16; 8],
    pub previous: [u16; 8],
}
