// The modules that tokens stand in, and sets of modules.
ghost use Rattle.std.specs.Prelude.{◌≡◌, ◌<◌, ◌^◌, length, true, false, not, replicate, None, slice_index_or, slice_set};
ghost use Rattle.grammar.specs.Verdict.{kinds_of};
ghost use Rattle.rules.specs.Tables.{lit};

use crate::roles::home_behind;
use reading::Placed;
use std::slice::Iter;
use tokens::Token;

// A set of modules, with a mark for each: an array, since this crate has no heap.
#[derive(Clone, Copy)]
pub struct ModuleSet {
    pub marks: [bool; 256],
}

impl ModuleSet {
    // The set of one module.
    pub(crate) fn of(n: u8) -> ModuleSet
        ensures { result.marks ≡ slice_set (replicate 256 false) n true }
    {
        let mut marks = [false; 256];
        marks[n as usize] = true;
        ModuleSet { marks }
    }

    // Whether a token that stands in `within` stands in a module of the set.
    pub(crate) fn has(&self, within: Option<u8>) -> bool
        ensures { result ≡ lit self.now.marks within }
    {
        within.is_some_and(|n| self.marks[n as usize])
    }

    // Adds a module, and answers whether it is new.
    pub(crate) fn insert(&mut self, n: u8) -> bool
        ensures new { result ≡ not (slice_index_or self.old.marks n false) }
        ensures marks { self.new.marks ≡ slice_set self.old.marks n true }
    {
        let is_new = !self.marks[n as usize];
        self.marks[n as usize] = true;
        is_new
    }
}

// The tokens that are left in a walk over a text, each with the module that it stands in.
#[derive(Drop)]
pub struct Walk<'a, 't> {
    rest: Iter<'a, Placed<'t>>,
    within: Option<u8>,
}

impl<'a, 't> Walk<'a, 't> {
    ghost use Rattle.rules.specs.Walk.{left, standing};

    // Goes over the tokens of a text from its beginning.
    pub(crate) fn over(tokens: &'a [Placed<'t>]) -> Self
        ensures all { left result ≡ standing None (kinds_of tokens.now) }
        ensures fits { length (left result) < 2 ^ 64 }
    {
        Walk {
            rest: tokens.iter(),
            within: None,
        }
    }
}

impl<'a, 't> Iterator for Walk<'a, 't> {
    ghost use Rattle.std.specs.Iterator.{YieldsFirstBy, item_count};
    ghost use Rattle.rules.specs.Walk.{seen, left};

    type Item = (Option<u8>, Token<'t>);

    ghost next_gives = { YieldsFirstBy seen left };

    ghost remaining = { item_count left };

    fn next(&mut self) -> Option<(Option<u8>, Token<'t>)> {
        let placed = self.rest.next()?;
        let within = self.within;
        self.within = home_behind(&placed.token, within);
        Some((within, placed.token))
    }
}
