// What is open while a text is read, and what each move makes of it.
ghost use Rattle.std.specs.Prelude.{◌≡◌, OnOk, OnErr, is_ok};
ghost use Rattle.grammar.specs.Parsing.{wants_of, head_of, fresh, state_after, has_room, Ready};

use crate::table::{Block, Branch, Ending, Move, Pending, Want};
use stack::{Full, Stack};
use std::marker::Model;

// Reads a text token by token. The branches of the open conditions stand on a stack; clauses see it as a list, the innermost
// first.
#[derive(Drop)]
pub struct Parser<'m> {
    pending: Option<Pending>,
    brackets: usize,
    body: Option<Ending>,
    modules: usize,
    conditions: Stack<'m, Branch>,
}

impl<'m> Model for Parser<'m> {
    ghost use Rattle.std.specs.Prelude.{◌≡◌};
    ghost use Rattle.stack.specs.Entries.{entries, room};
    ghost use Rattle.grammar.specs.Parsing.{State};

    ghost Value = { State };

    ghost view = { λ p. record { pending = p.pending; brackets = p.brackets; body = p.body; modules = p.modules; conditions = entries p.conditions } };

    ghost invariant = { λ p. room p.conditions ≡ 16 };
}

impl<'m> Parser<'m> {
    // Nothing is open. The slots take the open conditions.
    pub(crate) fn new(slots: &'m mut [Branch; 16]) -> Parser<'m>
        ensures { result ≡ fresh }
    {
        Parser {
            pending: None,
            brackets: 0,
            body: None,
            modules: 0,
            conditions: Stack::new(slots),
        }
    }

    // How many modules have begun.
    pub(crate) fn modules(&self) -> usize
        ensures { result ≡ self.now.modules }
    {
        self.modules
    }

    // What is due next.
    pub(crate) fn due(&self) -> Want
        ensures { result ≡ head_of (wants_of self.now) }
    {
        if let Some(pending) = self.pending {
            Want::Pending(pending)
        } else if self.brackets > 0 {
            Want::Rest
        } else if let Some(branch) = self.conditions.peek() {
            Want::Commands(Block::Branch(branch))
        } else if let Some(ending) = self.body {
            Want::Commands(Block::Body(ending))
        } else {
            Want::Modules
        }
    }

    // Makes a move; refused, with nothing changed, where it opens one thing too many.
    pub(crate) fn apply(&mut self, step: Move) -> Result<(), Full>
        requires { Ready step self.old.brackets }
        ensures answer { is_ok result ≡ has_room step self.old }
        ensures made { OnOk result (self.new ≡ state_after step self.old) }
        ensures refused { OnErr result (self.new ≡ self.old) }
    {
        match step {
            Move::Keep => {}
            Move::Fill => self.pending = None,
            Move::Begin | Move::Nest => {
                if self.brackets >= 8 {
                    return Err(Full);
                }
                self.brackets += 1;
                self.pending = Some(Pending::First);
            }
            Move::Operate => self.pending = Some(Pending::Operand),
            Move::Unnest => self.brackets -= 1,
            Move::Enter(ending) => {
                if self.modules >= 64 {
                    return Err(Full);
                }
                self.modules += 1;
                self.body = Some(ending);
            }
            Move::Test => self.conditions.push(Branch::Then)?,
            Move::Compare => {
                self.conditions.push(Branch::Then)?;
                self.pending = Some(Pending::Comparand);
            }
            Move::Turn => {
                let _ = self.conditions.replace(Branch::Otherwise);
            }
            Move::Leave => {
                let _ = self.conditions.pop();
            }
            Move::Finish => self.body = None,
        }
        Ok(())
    }
}
