// The linking rules of a list: labels, calls, and what each of the two levels may do. They are asked of the tokens of any
// text, in whatever order.
#![tactic(auto)]

ghost use Rattle.std.specs.Prelude.{◌≡◌, ◌<◌, length, Decides};
ghost use Rattle.grammar.specs.Verdict.{kinds_of};
ghost use Rattle.rules.specs.Findings.{Found, OneFinding};
ghost use Rattle.rules.specs.Labels.{IsLabel, Labelled, Repeats, Astray, Unlinked};
ghost use Rattle.rules.specs.Levels.{Misplaced, home};
ghost use Rattle.rules.specs.Bytes.{Clash};
ghost use Rattle.rules.specs.Laws.{CallsGoDown, CallsLand, HomeIsLastLabel};
ghost use Rattle.rules.specs.Tables.{Marks, Spread, Touched, MeetsEither};

mod modules;
mod roles;

use crate::modules::{ModuleSet, Walk};
use crate::roles::{Span, callee_of, is_for_level_one, label_of, stored_by, stores_among};
use reading::Placed;

// Whether label n stands among the tokens.
fn has_label(tokens: &[Placed], n: u8) -> bool
    ensures { Decides result (Labelled (kinds_of tokens.now) n 0 (length (kinds_of tokens.now))) }
{
    tokens.iter().any(|placed| placed.token.is_label(n))
}

// The first place of label n.
pub fn find_label(tokens: &[Placed], n: u8) -> Option<usize>
    ensures first { Found (IsLabel (kinds_of tokens.now) n) result }
    ensures one { OneFinding (IsLabel (kinds_of tokens.now) n) }
{
    tokens.iter().position(|placed| placed.token.is_label(n))
}

// Whether the token at `i` is a label that stands further up too. A match and not `is_some_and`: the contract that is
// inferred of a closure around `has_label` is empty.
fn repeats(tokens: &[Placed], i: usize) -> bool
    requires { i < length tokens.now }
    ensures { Decides result (Repeats (kinds_of tokens.now) i) }
{
    match label_of(&tokens[i].token) {
        Some(n) => has_label(&tokens[..i], n),
        None => false,
    }
}

// Cause 9: the first label that stands further up too.
pub fn repeated_label(tokens: &[Placed]) -> Option<usize>
    ensures first { Found (Repeats (kinds_of tokens.now)) result }
    ensures one { OneFinding (Repeats (kinds_of tokens.now)) }
{
    (0..tokens.len()).find(|&i| repeats(tokens, i))
}

// Whether the token at `i` is a call with no label further down. A match, as in `repeats`.
fn is_astray(tokens: &[Placed], i: usize) -> bool
    requires { i < length tokens.now }
    ensures { Decides result (Astray (kinds_of tokens.now) i) }
{
    match callee_of(&tokens[i].token) {
        Some(n) => !has_label(&tokens[i + 1..], n),
        None => false,
    }
}

// The first call with no label further down.
fn first_astray(tokens: &[Placed]) -> Option<usize>
    ensures { Found (Astray (kinds_of tokens.now)) result }
{
    (0..tokens.len()).find(|&i| is_astray(tokens, i))
}

// Cause 10: the first call with no label further down, or the end where label 0 or 1 is missing.
pub fn unlinked(tokens: &[Placed]) -> Option<usize>
    ensures first { Found (Unlinked (kinds_of tokens.now)) result }
    ensures one { OneFinding (Unlinked (kinds_of tokens.now)) }
    ensures land { CallsLand }
    ensures down { CallsGoDown }
{
    if let Some(i) = first_astray(tokens) {
        return Some(i);
    }
    if has_label(tokens, 0) && has_label(tokens, 1) {
        None
    } else {
        Some(tokens.len())
    }
}

// Goes once through the text and adds the modules that modules of the set call. Says whether there was a new one.
fn spread(tokens: &[Placed], set: &mut ModuleSet) -> bool
    ensures { Spread (kinds_of tokens.now) set.old.marks set.new.marks result }
{
    let mut grown = false;
    for (within, token) in Walk::over(tokens) {
        if let Some(n) = callee_of(&token) {
            if set.has(within) && set.insert(n) {
                grown = true;
            }
        }
    }
    grown
}

// The modules that `root` reaches by calls, itself included. Where calls go down, the second pass adds none.
fn level(tokens: &[Placed], root: u8) -> ModuleSet
    ensures { Marks (kinds_of tokens.now) root result.marks }
{
    let mut set = ModuleSet::of(root);
    while spread(tokens, &mut set) {}
    set
}

// The modules that `root` reaches by calls, itself included.
pub fn reached(tokens: &[Placed], root: u8) -> [bool; 256]
    ensures { Marks (kinds_of tokens.now) root result }
{
    level(tokens, root).marks
}

// Cause 11: the first token for level 1 alone in a module that level 0 reaches.
pub fn misplaced(tokens: &[Placed]) -> Option<usize>
    ensures first { Found (Misplaced (kinds_of tokens.now)) result }
    ensures one { OneFinding (Misplaced (kinds_of tokens.now)) }
    ensures homes { HomeIsLastLabel }
{
    let slow = level(tokens, 0);
    Walk::over(tokens).position(|(within, token)| slow.has(within) && is_for_level_one(&token))
}

// Whether a token in a module of the set stores into one of the bytes.
fn touched(tokens: &[Placed], set: &ModuleSet, bytes: Span) -> bool
    ensures { Decides result (Touched (kinds_of tokens.now) set.now.marks bytes) }
{
    Walk::over(tokens).any(|(within, token)| set.has(within) && stores_among(&token, bytes))
}

// Whether module `within` is on one level, and a token on the other stores into one of the bytes.
fn clashes(
    tokens: &[Placed],
    slow: &ModuleSet,
    quick: &ModuleSet,
    within: Option<u8>,
    bytes: Span,
) -> bool
    ensures { Decides result (MeetsEither (kinds_of tokens.now) slow.now.marks quick.now.marks within bytes) }
{
    (quick.has(within) && touched(tokens, slow, bytes))
        || (slow.has(within) && touched(tokens, quick, bytes))
}

// Whether the token at `i`, which stands in module `within`, stores into a byte that the other level stores into no later. A
// match, as in `repeats`.
fn clashes_at(
    tokens: &[Placed],
    slow: &ModuleSet,
    quick: &ModuleSet,
    i: usize,
    within: Option<u8>,
) -> bool
    requires inside { i < length tokens.now }
    requires home { within ≡ home (kinds_of tokens.now) i }
    requires slow { Marks (kinds_of tokens.now) 0 slow.now.marks }
    requires quick { Marks (kinds_of tokens.now) 1 quick.now.marks }
    ensures { Decides result (Clash (kinds_of tokens.now) i) }
{
    match stored_by(&tokens[i].token) {
        Some(bytes) => clashes(&tokens[..i + 1], slow, quick, within, bytes),
        None => false,
    }
}

// Cause 12: the first store into a byte that the other level stores into no later.
pub fn clashing(tokens: &[Placed]) -> Option<usize>
    ensures first { Found (Clash (kinds_of tokens.now)) result }
    ensures one { OneFinding (Clash (kinds_of tokens.now)) }
{
    let slow = level(tokens, 0);
    let quick = level(tokens, 1);
    Walk::over(tokens).enumerate().position(|(i, (within, _))| clashes_at(
        tokens, &slow, &quick, i, within,
    ))
}
