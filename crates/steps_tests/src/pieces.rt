// Passes step by step: OP behind each step, and the same cells from a pass that is begun anew and from one that goes on.
use crate::rows::Fact::{Byte, Input};
use crate::rows::{Cells, Fact, Level, before};
use linking::{Compiled, compile};
use meaning::run_pass;
use program::instruction::Entry;
use program::{Cpu, Program};
use stack::Stack;
use std::process::Abort;
use std::test::Fail;

// A list, the level of the pass, what is not 0 before it, and OP behind each step.
const ROWS: [(&[u8], Level, &[Fact], &[u16]); 14] = [
    (b":001 J1 :000 J0", Level::Quick, &[], &[0]),
    (
        b":001 L5 + [ L3 - 1 ] SF010 J1 :000 J0",
        Level::Quick,
        &[],
        &[5, 5, 3, 2, 7, 7, 7],
    ),
    (
        b":001 L9 [ L5 ] X [ [ L1 ] + 2 ] J1 :000 J0",
        Level::Quick,
        &[],
        &[9, 9, 5, 5, 5, 5, 1, 1, 3, 6, 6],
    ),
    (
        b":001 L1 + [ L2 + [ L3 + [ L4 ] ] ] J1 :000 J0",
        Level::Quick,
        &[],
        &[1, 1, 2, 2, 3, 3, 4, 7, 9, 10, 10],
    ),
    (
        b":001 I000 L1 E L2 L3 Z + 1 J1 :000 J0",
        Level::Quick,
        &[Input(0, 1)],
        &[0, 1, 1, 2, 2],
    ),
    (
        b":001 I000 L1 E L2 L3 Z + 1 J1 :000 J0",
        Level::Quick,
        &[],
        &[0, 2, 3, 4, 4],
    ),
    (
        b":001 I000 I001 L1 E L2 Z U000 E L3 Z NSY02 J1 :000 J0",
        Level::Quick,
        &[Input(0, 1)],
        &[0, 0, 2, 2, 2, 2, 2],
    ),
    (
        b":001 L1 G003 SF000 J1 :000 J0 :003 + 1 G004 + 1 R :004 + 1 G005 + 1 R :005 + 100 R",
        Level::Quick,
        &[],
        &[1, 1, 2, 2, 3, 3, 103, 103, 104, 104, 105, 105, 105, 105],
    ),
    (
        b":001 J1 :000 G003 SF000 J0 :003 L1 G004 + 1 R :004 I000 + 5 G005 E - 5 Z R :005 UF0100 R",
        Level::Slow,
        &[Input(0, 1)],
        &[0, 1, 1, 1, 6, 6, 6, 6, 6, 6, 7, 7, 7, 7],
    ),
    (
        b":001 I000 U001 E D001 Z J1 :000 LI00 + LF010 SF010 SY02 J0",
        Level::Quick,
        &[Input(0, 1)],
        &[0, 0, 0, 0],
    ),
    (
        b":001 I000 U001 E D001 Z J1 :000 LI00 + LF010 SF010 SY02 J0",
        Level::Slow,
        &[Input(0, 1), Byte(10, 4)],
        &[1, 5, 5, 5, 5],
    ),
    (
        b":001 L250 ST00 LT00 - 1 ST19 NST00 J1 :000 J0",
        Level::Quick,
        &[],
        &[250, 250, 250, 249, 249, 249, 249],
    ),
    (
        b":001 V000 I000 LF020 + 1 SF020 Z Z LF020 >= 3 U000 E D000 Z J1 :000 J0",
        Level::Quick,
        &[Input(0, 1), Byte(20, 2), Byte(128, 255)],
        &[0, 0, 2, 3, 3, 3, 3, 3, 3, 3],
    ),
    (
        b":001 G003 J1 :000 J0 :003 G004 R :004 G005 R :005 G006 R :006 G007 R :007 G008 R :008 G009 R :009 G010 R :010 [[[[[[[[L5]]]]]]]] R",
        Level::Quick,
        &[],
        &[
            0, 0, 0, 0, 0, 0, 0, 0, 0, 0, 0, 0, 0, 0, 0, 0, 5, 5, 5, 5, 5, 5, 5, 5, 5, 5, 5, 5, 5,
            5, 5, 5, 5, 5,
        ],
    ),
];

// Cell by cell and not by `==`, so that a failure names the cell.
fn same(rt: &impl Abort, row: usize, k: u16, a: &Cpu, b: &Cpu) -> Result<(), Fail> {
    assert_eq!(rt; a.op(), b.op(), "row {row}, step {k}");
    assert_eq!(rt; a.place(), b.place(), "row {row}, step {k}");
    assert_eq!(rt; a.is_over(), b.is_over(), "row {row}, step {k}");
    for i in 0..144u8 {
        assert_eq!(rt; a.byte(i), b.byte(i), "row {row}, step {k}, byte {i}");
        assert_eq!(rt;
            a.is_stored(i),
            b.is_stored(i),
            "row {row}, step {k}, byte {i}"
        );
    }
    for i in 0..20u8 {
        assert_eq!(rt; a.timer(i), b.timer(i), "row {row}, step {k}, timer {i}");
    }
    Ok(())
}

// One pass goes on by a step at a time; for each k another one is begun and makes k steps.
fn goes(
    rt: &impl Abort,
    row: usize,
    program: &Program,
    place: u16,
    cells: &Cells,
    ops: &[u16],
) -> Result<(), Fail> {
    let mut slots = [Entry::Back(0); 16];
    let mut stack = Stack::new(&mut slots);
    let mut cpu = Cpu::new(cells.bytes, cells.timers, place);
    let none = run_pass(program, place, &cells.sight, cells.bytes, cells.timers, 0);
    assert_eq!(rt; none.steps, 0, "row {row}");
    assert!(rt; !none.cpu.is_over(), "row {row}");
    same(rt, row, 0, &none.cpu, &cpu)?;
    for (k, op) in (1u16..).zip(ops) {
        let last = k as usize == ops.len();
        let made = cpu.run(program, &cells.sight, &mut stack, 1);
        let over = cpu.is_over();
        assert_eq!(rt; made, 1, "row {row}, step {k}");
        assert_eq!(rt; over, last, "row {row}, step {k}");
        assert_eq!(rt; cpu.op(), *op, "row {row}, step {k}");
        let pass = run_pass(program, place, &cells.sight, cells.bytes, cells.timers, k);
        assert_eq!(rt; pass.steps, k, "row {row}, step {k}");
        assert_eq!(rt; pass.cpu.is_over(), last, "row {row}, step {k}");
        same(rt, row, k, &pass.cpu, &cpu)?;
    }
    let made = cpu.run(program, &cells.sight, &mut stack, 1);
    let over = cpu.is_over();
    assert_eq!(rt; made, 0, "row {row}");
    assert!(rt; over, "row {row}");
    let whole = run_pass(
        program,
        place,
        &cells.sight,
        cells.bytes,
        cells.timers,
        65535,
    );
    assert_eq!(rt; whole.steps as usize, ops.len(), "row {row}");
    assert!(rt; whole.cpu.is_over(), "row {row}");
    same(rt, row, whole.steps, &whole.cpu, &cpu)
}

#[test]
fn step_by_step(rt: HostRuntime) -> Result<(), Fail> {
    for (row, (text, level, facts, ops)) in ROWS.iter().enumerate() {
        let mut record = Compiled::empty();
        if compile(text, &mut record).is_err() {
            return Err(Fail::new(format_args!("row {row}: refused")));
        }
        let program = record.program();
        let cells = before(facts)?;
        goes(&rt, row, program, level.entry(program), &cells, ops)?;
    }
    Ok(())
}
