// What a row says of a pass, and whether the pass does it.
use linking::{Compiled, Figures, compile};
use meaning::run_pass;
use program::{Program, Sight};
use std::process::Abort;
use std::test::Fail;

// What a cell holds: word i of the inputs or of those of the opening before, byte i of the 144, timer i.
#[derive(Clone, Copy)]
pub(crate) enum Fact {
    Input(u8, u16),
    Previous(u8, u16),
    Byte(u8, u8),
    Timer(u8, u16),
}

// All that a pass begins with.
#[derive(Clone, Copy)]
pub(crate) struct Cells {
    pub(crate) sight: Sight,
    pub(crate) bytes: [u8; 144],
    pub(crate) timers: [u16; 20],
    pub(crate) stored: [bool; 144],
}

// The cells with what is said of some; a byte that something is said of counts as stored into.
pub(crate) fn with(cells: Cells, facts: &[Fact]) -> Result<Cells, Fail> {
    let mut cells = cells;
    for fact in facts {
        match *fact {
            Fact::Input(i, v) if i < 8 => cells.sight.inputs[i as usize] = v,
            Fact::Previous(i, v) if i < 8 => cells.sight.previous[i as usize] = v,
            Fact::Byte(i, v) if i < 144 => {
                cells.bytes[i as usize] = v;
                cells.stored[i as usize] = true;
            }
            Fact::Timer(i, v) if i < 20 => cells.timers[i as usize] = v,
            _ => return Err(Fail::new("no such cell")),
        }
    }
    Ok(cells)
}

// The cells before a pass: nothing is stored yet.
pub(crate) fn before(facts: &[Fact]) -> Result<Cells, Fail> {
    let zero = Cells {
        sight: Sight::default(),
        bytes: [0; 144],
        timers: [0; 20],
        stored: [false; 144],
    };
    let mut cells = with(zero, facts)?;
    cells.stored = [false; 144];
    Ok(cells)
}

// A level: :001 or :000.
#[derive(Clone, Copy)]
pub(crate) enum Level {
    Quick,
    Slow,
}

impl Level {
    // The place that its passes start at.
    pub(crate) fn entry(self, program: &Program) -> u16 {
        match self {
            Level::Quick => program.quick(),
            Level::Slow => program.slow(),
        }
    }

    fn figure(self, figures: Figures) -> u16 {
        match self {
            Level::Quick => figures.quick,
            Level::Slow => figures.slow,
        }
    }
}

// A pass of a level, and what is not 0 before it; then OP, the steps, the figure, and the bytes and timers that the pass stores
// into.
#[derive(Clone, Copy)]
pub(crate) struct Pass<'a> {
    pub(crate) level: Level,
    pub(crate) facts: &'a [Fact],
    pub(crate) op: u16,
    pub(crate) steps: u16,
    pub(crate) figure: u16,
    pub(crate) after: &'a [Fact],
}

// A pass of the list goes as it is said, and stores into nothing else.
pub(crate) fn runs(rt: &impl Abort, row: usize, text: &[u8], said: Pass<'_>) -> Result<(), Fail> {
    let mut record = Compiled::empty();
    let Ok(figures) = compile(text, &mut record) else {
        return Err(Fail::new(format_args!("row {row}: refused")));
    };
    let program = record.program();
    let place = said.level.entry(program);
    assert_eq!(rt; said.level.figure(figures), said.figure, "row {row}");
    let cells = before(said.facts)?;
    let end = with(cells, said.after)?;
    let pass = run_pass(
        program,
        place,
        &cells.sight,
        cells.bytes,
        cells.timers,
        65535,
    );
    assert!(rt; pass.cpu.is_over(), "row {row}");
    assert_eq!(rt; pass.steps, said.steps, "row {row}");
    assert_eq!(rt; pass.cpu.op(), said.op, "row {row}");
    for (i, (byte, stored)) in (0..144u8).zip(end.bytes.iter().zip(&end.stored)) {
        assert_eq!(rt; pass.cpu.byte(i), Some(*byte), "row {row}, byte {i}");
        assert_eq!(rt; pass.cpu.is_stored(i), Some(*stored), "row {row}, byte {i}");
    }
    for (i, timer) in (0..20u8).zip(&end.timers) {
        assert_eq!(rt; pass.cpu.timer(i), Some(*timer), "row {row}, timer {i}");
    }
    Ok(())
}

// Lists whose :001 has the commands of a row and whose :000 has none.
pub(crate) fn bodies(
    rt: &(impl Abort + AllocGlobal),
    rows: &[(&[u8], &[Fact], u16, u16, u16, &[Fact])],
) -> Result<(), Fail> {
    for (row, (body, facts, op, steps, figure, after)) in rows.iter().enumerate() {
        let mut text = Vec::new(rt.alloc());
        text.extend_from_slice(b":001 ")?;
        text.extend_from_slice(body)?;
        text.extend_from_slice(b" J1 :000 J0")?;
        let said = Pass {
            level: Level::Quick,
            facts,
            op: *op,
            steps: *steps,
            figure: *figure,
            after,
        };
        runs(rt, row, text.as_slice(), said)?;
    }
    Ok(())
}
