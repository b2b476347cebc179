// The figure of a module, held at 60,001, and how many modules its longest chain of calls has below it, held at 9.
#[derive(Clone, Copy, Debug, PartialEq, Eq)]
pub struct Weight {
    pub figure: u32,
    pub chain: u8,
}
