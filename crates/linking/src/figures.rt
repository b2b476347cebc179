// How many steps a pass of :001, the quick level, and of :000, the slow level, takes at most.
#[derive(Clone, Copy, Debug, PartialEq, Eq)]
pub struct Figures {
    pub quick: u16,
    pub slow: u16,
}
