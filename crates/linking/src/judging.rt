// The parts of compiling: the rules in their order, the program, and its weight.
ghost use Rattle.std.specs.Prelude.{◌≡◌, ℕ, ◌≤◌, true, List, map, length, Decides};
ghost use Rattle.scanning.specs.Text.{longest};
ghost use Rattle.reading.specs.Items.{item};
ghost use Rattle.grammar.specs.Grammar.{Module, Text, spell};
ghost use Rattle.grammar.specs.Verdict.{kinds_of, place_at};
ghost use Rattle.rules.specs.Findings.{NoneAt};
ghost use Rattle.rules.specs.Labels.{IsLabel, Unlinked};
ghost use Rattle.emission.specs.Claims.{AllKnown};
ghost use Rattle.emission.specs.Emission.{fits};
ghost use Rattle.linking.specs.Judging.{Ruled, Assembled, LabelPlace, Weighed, ListText, Links, LevelWeighed};

use crate::LinkFault;
use crate::compiled::Compiled;
use crate::figures::Figures;
use crate::parsed::ParsedText;
use emission::{emit, entry};
use faults::Place;
use grammar::{parse, place_behind};
use program::Program;
use program::instruction::Instruction;
use reading::Placed;
use rules::{clashing, find_label, misplaced, repeated_label, unlinked};
use weights::{Weight, weigh};

// The program of a list: its instructions, and the places of :001 and :000.
fn assemble(tokens: &[Placed]) -> Program
    requires text { Text (kinds_of tokens.now) }
    requires known { AllKnown (kinds_of tokens.now) }
    requires room { fits (kinds_of tokens.now) ≡ true }
    ensures { Assembled (kinds_of tokens.now) result }
{
    let mut code = [Instruction::Return; 2048];
    let len = emit(tokens, &mut code).unwrap();
    let quick = entry(tokens, 1) as u16;
    let slow = entry(tokens, 0) as u16;
    let mut program = Program::empty();
    program.load(&code[..len as usize], quick, slow).unwrap();
    program
}

impl ParsedText<'_, '_> {
    // The place of the token at `i`; behind the last token, that of the text's end.
    fn place_of(&self, i: usize) -> Place
        ensures { result ≡ place_at self.now.text.now (map item self.now.tokens.now) i }
    {
        match self.tokens.get(i) {
            Some(placed) => placed.place,
            None => place_behind(self.text).unwrap(),
        }
    }

    // Causes 9 to 12: the first rule that is broken, at its first place. A helper that takes each rule's fault as a closure
    // would be as long as the four blocks.
    fn check_rules(&self) -> Result<(), LinkFault>
        ensures { Ruled self.now.text.now (map item self.now.tokens.now) result }
    {
        if let Some(i) = repeated_label(self.tokens) {
            return Err(LinkFault::Repeated(self.place_of(i)));
        }
        if let Some(i) = unlinked(self.tokens) {
            return Err(LinkFault::Unlinked(self.place_of(i)));
        }
        if let Some(i) = misplaced(self.tokens) {
            return Err(LinkFault::Misplaced(self.place_of(i)));
        }
        if let Some(i) = clashing(self.tokens) {
            return Err(LinkFault::Clashing(self.place_of(i)));
        }
        Ok(())
    }

    // The place of a label that stands in the text.
    fn label_place(&self, n: u8) -> Place
        requires { NoneAt (IsLabel (kinds_of self.now.tokens.now) n) → ⊥ }
        ensures { LabelPlace self.now.text.now (map item self.now.tokens.now) n result }
    {
        self.place_of(find_label(self.tokens, n).unwrap())
    }

    // The figure of a level from its weight, or cause 13 at its label.
    fn level_figure(&self, weight: Weight, n: u8) -> Result<u16, LinkFault>
        requires { NoneAt (IsLabel (kinds_of self.now.tokens.now) n) → ⊥ }
        ensures { LevelWeighed self.now.text.now (map item self.now.tokens.now) n weight result }
    {
        if weight.chain > 8 || weight.figure > 60000 {
            return Err(LinkFault::Overweight(self.label_place(n)));
        }
        Ok(weight.figure as u16)
    }

    // Cause 13, or the figures.
    fn weigh_levels(&self, program: &Program) -> Result<Figures, LinkFault>
        requires rooted { NoneAt (Unlinked (kinds_of self.now.tokens.now)) }
        requires program { Assembled (kinds_of self.now.tokens.now) program.now }
        ensures { (ms : List Module) → spell ms ≡ kinds_of self.now.tokens.now → Weighed self.now.text.now (map item self.now.tokens.now) ms result }
    {
        let quick = self.level_figure(weigh(program, program.quick()), 1)?;
        let slow = self.level_figure(weigh(program, program.slow()), 0)?;
        Ok(Figures { quick, slow })
    }

    // The record, or the fault of linking.
    fn link(&self) -> Result<Compiled, LinkFault>
        requires { ListText self.now.text.now (map item self.now.tokens.now) }
        ensures { Links self.now.text.now result }
    {
        self.check_rules()?;
        let program = assemble(self.tokens);
        let figures = self.weigh_levels(&program)?;
        Ok(Compiled { program, figures })
    }
}

// The record of a text, or its fault.
pub(crate) fn link(text: &[u8]) -> Result<Compiled, LinkFault>
    ensures { Links text.now result }
{
    let mut memory = [Placed::blank(); 2048];
    let shape = parse(text, &mut memory)?;
    let tokens = &memory[..shape.tokens];
    ParsedText { text, tokens }.link()
}
