ghost use Rattle.std.specs.Prelude.{◌≡◌, ◌≤◌, [], reverse, length, ◌==◌};
ghost use Rattle.stack.specs.Entries.{front, entries, held, room, lender, newest, without_newest, with_newest};
ghost use Rattle.stack.specs.Entries.{take_up_answer, taken_up, push_answer, pushed};
ghost use Rattle.stack.specs.Entries.{held_after_take_up, held_after_push, held_after_pop, held_after_replace};

use crate::stacks::{Full, Stack};

impl<'m, T: Copy> Stack<'m, T> {
    // An empty stack over these slots.
    pub fn new(slots: &'m mut [T]) -> Stack<'m, T>
        ensures entries { entries result ≡ [] }
        ensures held { held result ≡ slots.old }
        ensures room { room result ≡ length slots.old }
        ensures lender { lender result ≡ slots.entry.ghost_name }
    {
        Stack { slots, len: 0 }
    }

    // Takes the first `len` slots as the entries, as they were left.
    // Refused, and nothing changes, if there are not that many slots.
    pub fn take_up(&mut self, len: usize) -> Result<(), Full>
        ensures answer { result ≡ take_up_answer len (room self.old) }
        ensures entries { entries self.new ≡ taken_up len (held self.old) (entries self.old) }
        ensures held { held self.new ≡ held_after_take_up (held self.old) }
        ensures room { room self.new ≡ room self.old }
        ensures lender { lender self.new ≡ lender self.old }
    {
        if len > self.slots.len() {
            return Err(Full);
        }
        self.len = len;
        Ok(())
    }

    // How many entries there are.
    pub fn len(&self) -> usize
        ensures count { result ≡ length (entries self.now) }
        ensures within { result ≤ room self.now }
        ensures leaves { front result (held self.now) ≡ entries self.now }
    {
        self.used().len()
    }

    // Whether there is no entry.
    pub fn is_empty(&self) -> bool
        ensures answer { result ≡ (length (entries self.now) == 0) }
    {
        self.used().is_empty()
    }

    // Adds an entry, which is then the newest. Refused, and nothing changes, if all slots are in use.
    pub fn push(&mut self, x: T) -> Result<(), Full>
        ensures answer { result ≡ push_answer (entries self.old) (room self.old) }
        ensures entries { entries self.new ≡ pushed (entries self.old) (room self.old) x }
        ensures held { held self.new ≡ held_after_push (held self.old) (entries self.old) x }
        ensures room { room self.new ≡ room self.old }
        ensures lender { lender self.new ≡ lender self.old }
    {
        if self.len == self.slots.len() {
            return Err(Full);
        }
        self.slots[self.len] = x;
        self.len += 1;
        Ok(())
    }

    // Removes the newest entry and answers it. Its slot keeps what it held.
    pub fn pop(&mut self) -> Option<T>
        ensures answer { result ≡ newest (entries self.old) }
        ensures entries { entries self.new ≡ without_newest (entries self.old) }
        ensures held { held self.new ≡ held_after_pop (held self.old) }
        ensures room { room self.new ≡ room self.old }
        ensures lender { lender self.new ≡ lender self.old }
    {
        let newest = self.peek()?;
        self.len -= 1;
        Some(newest)
    }

    // The newest entry.
    pub fn peek(&self) -> Option<T>
        ensures answer { result ≡ newest (entries self.now) }
    {
        self.used().last().copied()
    }

    // Puts an entry in the place of the newest, which it answers. An empty stack stays empty.
    pub fn replace(&mut self, x: T) -> Option<T>
        ensures answer { result ≡ newest (entries self.old) }
        ensures entries { entries self.new ≡ with_newest x (entries self.old) }
        ensures held { held self.new ≡ held_after_replace (held self.old) (entries self.old) x }
        ensures room { room self.new ≡ room self.old }
        ensures lender { lender self.new ≡ lender self.old }
    {
        let newest = self.peek()?;
        self.slots[self.len - 1] = x;
        Some(newest)
    }

    // The slots in use: the entries, the newest last.
    fn used(&self) -> &[T]
        ensures entries { reverse result.now ≡ entries self.now }
    {
        &self.slots[..self.len]
    }
}
