ghost use Rattle.std.specs.Prelude.{◌≤◌, length};

mod methods;

// A stack whose entries are the first `len` slots, the newest in the last of them. Slots with a length beside them and
// not a Vec: this crate has no heap, and its memory is lent. That a call leaves `room` and `lender` as they were is two
// clauses and not one, since callers cite the first alone.
#[derive(Drop)]
pub struct Stack<'m, T> {
    slots: &'m mut [T],
    len: usize,
    ghost ok: { len ≤ length slots.now },
}

// There are not enough slots.
#[derive(Clone, Copy, Debug, PartialEq, Eq)]
pub struct Full;
