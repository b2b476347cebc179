// One step.
ghost use Rattle.std.specs.Prelude.{◌≡◌, false};
ghost use Rattle.stack.specs.Entries.{entries, room, lender};
ghost use Rattle.program.specs.Machine.{tick};
ghost use Rattle.program.specs.View.{seen, view, acts, alone, no_inputs, by_itself, saves, CanMake, SameSlots};
ghost use Rattle.program.specs.declared.instruction.Instruction.TheVariants.{Return, Load, Apply, Open, Close, StoreBit, StoreWord, Switch, Test, Skip, Call};

use crate::cpu::Cpu;
use crate::instruction::{Check, Entry, Instruction, Source};
use crate::record::Program;
use crate::sight::Sight;
use crate::values;
use stack::Stack;
use tokens::{BitCell, Operator, WordCell};

// The steps that leave the stack alone: what they do depends neither on its entries nor on its room.
impl Cpu {
    fn load(&mut self, sight: &Sight, source: Source)
        requires { CanMake (Load source) self.old }
        ensures { self.new ≡ alone (seen sight.now) (Load source) self.old }
    {
        self.op = self.source_value(sight, source);
        self.place += 1;
    }

    fn apply(&mut self, sight: &Sight, operator: Operator, source: Source)
        requires { CanMake (Apply operator source) self.old }
        ensures { self.new ≡ alone (seen sight.now) (Apply operator source) self.old }
    {
        let value = self.source_value(sight, source);
        self.op = values::combined(operator, self.op, value);
        self.place += 1;
    }

    fn keep_bit(&mut self, cell: BitCell, not: bool)
        requires { CanMake (StoreBit cell not) self.old }
        ensures { self.new ≡ by_itself (StoreBit cell not) self.old }
    {
        self.store_bit(cell, (self.op % 2 == 1) != not);
        self.place += 1;
    }

    fn keep_word(&mut self, cell: WordCell, not: bool)
        requires { CanMake (StoreWord cell not) self.old }
        ensures { self.new ≡ by_itself (StoreWord cell not) self.old }
    {
        let value = values::turned_word(not, self.op);
        self.store_word(cell, value);
        self.place += 1;
    }

    fn switch(&mut self, cell: BitCell, on: bool)
        requires { CanMake (Switch cell on) self.old }
        ensures { self.new ≡ by_itself (Switch cell on) self.old }
    {
        self.store_bit(cell, on);
        self.place += 1;
    }

    fn test(&mut self, sight: &Sight, check: Check, skip: u16)
        requires { CanMake (Test check skip) self.old }
        ensures { self.new ≡ alone (seen sight.now) (Test check skip) self.old }
    {
        if self.is_met(sight, check) {
            self.place += 1;
        } else {
            self.place += 1 + skip;
        }
    }

    fn skip(&mut self, by: u16)
        requires { CanMake (Skip by) self.old }
        ensures { self.new ≡ by_itself (Skip by) self.old }
    {
        self.place += 1 + by;
    }
}

// The steps that use the stack.
impl Cpu {
    // Puts an entry on the stack and goes on at `next`; a full stack stops the machine.
    fn save(&mut self, stack: &mut Stack<'_, Entry>, entry: Entry, next: u16)
        requires { self.old.over ≡ false }
        ensures view { view self.new (entries stack.new) ≡ saves (room stack.old) entry next self.old (entries stack.old) }
        ensures slots { SameSlots stack.old stack.new }
    {
        match stack.push(entry) {
            Ok(()) => self.place = next,
            Err(_) => self.over = true,
        }
    }

    fn open(&mut self, stack: &mut Stack<'_, Entry>, before: Option<Operator>)
        requires { CanMake (Open before) self.old }
        ensures view { view self.new (entries stack.new) ≡ acts no_inputs (room stack.old) (Open before) self.old (entries stack.old) }
        ensures slots { SameSlots stack.old stack.new }
    {
        let next = self.place + 1;
        self.save(stack, Entry::Saved(self.op, before), next);
    }

    fn call(&mut self, stack: &mut Stack<'_, Entry>, to: u16)
        requires { CanMake (Call to) self.old }
        ensures view { view self.new (entries stack.new) ≡ acts no_inputs (room stack.old) (Call to) self.old (entries stack.old) }
        ensures slots { SameSlots stack.old stack.new }
    {
        let back = self.place + 1;
        self.save(stack, Entry::Back(back), to);
    }

    fn close(&mut self, stack: &mut Stack<'_, Entry>)
        requires { CanMake Close self.old }
        ensures view { view self.new (entries stack.new) ≡ acts no_inputs (room stack.old) Close self.old (entries stack.old) }
        ensures slots { SameSlots stack.old stack.new }
    {
        match stack.peek() {
            Some(Entry::Saved(value, before)) => {
                let _ = stack.pop();
                self.op = values::joined(before, value, self.op);
                self.place += 1;
            }
            Some(Entry::Back(_)) | None => self.over = true,
        }
    }

    // The end of a module: back to where it was called from, or the end of the pass.
    fn end(&mut self, stack: &mut Stack<'_, Entry>)
        requires { CanMake Return self.old }
        ensures view { view self.new (entries stack.new) ≡ acts no_inputs (room stack.old) Return self.old (entries stack.old) }
        ensures slots { SameSlots stack.old stack.new }
    {
        match stack.peek() {
            Some(Entry::Back(place)) => {
                let _ = stack.pop();
                self.place = place;
            }
            Some(Entry::Saved(_, _)) | None => self.over = true,
        }
    }
}

impl Cpu {
    // The instruction at `place`, in a pass that is not over. `live` gives a caller's proof what the caller showed.
    pub(super) fn execute(&mut self, program: &Program, sight: &Sight, stack: &mut Stack<'_, Entry>)
        requires { self.old.over ≡ false }
        ensures view { view self.new (entries stack.new) ≡ tick (seen sight.now) (room stack.old) program.now.code (view self.old (entries stack.old)) }
        ensures live { self.old.over ≡ false }
        ensures slots { SameSlots stack.old stack.new }
    {
        match program.fetch(self.place) {
            Instruction::Return => self.end(stack),
            Instruction::Load(source) => self.load(sight, source),
            Instruction::Apply(operator, source) => self.apply(sight, operator, source),
            Instruction::Open(before) => self.open(stack, before),
            Instruction::Close => self.close(stack),
            Instruction::StoreBit(cell, not) => self.keep_bit(cell, not),
            Instruction::StoreWord(cell, not) => self.keep_word(cell, not),
            Instruction::Switch(cell, on) => self.switch(cell, on),
            Instruction::Test(check, skip) => self.test(sight, check, skip),
            Instruction::Skip(by) => self.skip(by),
            Instruction::Call(to) => self.call(stack, to),
        }
    }

    // One step: the instruction at `place`, or nothing once the pass is over. The record, the sight and the stack are the
    // caller's and may change between two steps, so they are parameters.
    pub fn step(&mut self, program: &Program, sight: &Sight, stack: &mut Stack<'_, Entry>)
        ensures view { view self.new (entries stack.new) ≡ tick (seen sight.now) (room stack.old) program.now.code (view self.old (entries stack.old)) }
        ensures room { room stack.new ≡ room stack.old }
        ensures lender { lender stack.new ≡ lender stack.old }
    {
        if !self.over {
            self.execute(program, sight, stack);
        }
    }
}
