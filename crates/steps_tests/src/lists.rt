// Whole lists: calls, both levels.
use crate::rows::Fact::{Byte, Input};
use crate::rows::{Fact, Level, Pass, runs};
use std::test::Fail;

// A list, the level of the pass, what is not 0 before it; then OP, the steps, the figure, and what the pass stores into.
const ROWS: [(&[u8], Level, &[Fact], u16, u16, u16, &[Fact]); 19] = [
    (
        b":001 L5 G003 + 1 J1 :000 J0 :003 + 10 R",
        Level::Quick,
        &[],
        16,
        6,
        6,
        &[],
    ),
    (
        b":001 L1 G003 SF000 J1 :000 J0 :003 + 1 G004 + 1 R :004 + 1 G005 + 1 R :005 + 100 R",
        Level::Quick,
        &[],
        105,
        14,
        14,
        &[Byte(0, 105), Byte(1, 0)],
    ),
    (
        b":001 L1 G003 G003 J1 :000 J0 :003 + [ LI00 ] R",
        Level::Quick,
        &[Input(0, 20)],
        41,
        12,
        12,
        &[],
    ),
    (
        b":001 G003 J1 :000 J0 :003 R",
        Level::Quick,
        &[],
        0,
        3,
        3,
        &[],
    ),
    (
        b":001 L6 + [ L5 ] G003 - [ L1 ] J1 :000 J0 :003 + [ L2 + [ L3 ] ] R",
        Level::Quick,
        &[],
        15,
        16,
        16,
        &[],
    ),
    (
        b":001 I000 G003 E G004 Z J1 :000 J0 :003 L3 R :004 L4 L5 R",
        Level::Quick,
        &[Input(0, 1)],
        3,
        6,
        6,
        &[],
    ),
    (
        b":001 I000 G003 E G004 Z J1 :000 J0 :003 L3 R :004 L4 L5 R",
        Level::Quick,
        &[],
        5,
        6,
        6,
        &[],
    ),
    (b":001 L8 J1 :000 L5 J0", Level::Slow, &[], 5, 2, 2, &[]),
    (b":000 L5 J0 :001 L8 J1", Level::Quick, &[], 8, 2, 2, &[]),
    (
        b":001 G050 J1 :000 LI02 G050 SY02 J0 :050 A .000F R",
        Level::Slow,
        &[Input(1, 4660)],
        4,
        6,
        6,
        &[Byte(130, 4), Byte(131, 0)],
    ),
    (
        b":001 G050 J1 :000 LI02 G050 SY02 J0 :050 A .000F R",
        Level::Quick,
        &[Input(1, 4660)],
        0,
        4,
        4,
        &[],
    ),
    (
        b":001 I000 U001 E D001 Z J1 :000 LI00 + LF010 SF010 SY02 J0",
        Level::Quick,
        &[Input(0, 1)],
        0,
        4,
        4,
        &[Byte(128, 2)],
    ),
    (
        b":001 I000 U001 E D001 Z J1 :000 LI00 + LF010 SF010 SY02 J0",
        Level::Quick,
        &[Byte(128, 2)],
        0,
        3,
        4,
        &[Byte(128, 0)],
    ),
    (
        b":001 I000 U001 E D001 Z J1 :000 LI00 + LF010 SF010 SY02 J0",
        Level::Slow,
        &[Input(0, 1)],
        1,
        5,
        5,
        &[Byte(10, 1), Byte(11, 0), Byte(130, 1), Byte(131, 0)],
    ),
    (
        b":001 I000 U001 E D001 Z J1 :000 LI00 + LF010 SF010 SY02 J0",
        Level::Slow,
        &[Byte(10, 255), Byte(11, 255), Input(0, 1)],
        0,
        5,
        5,
        &[Byte(10, 0), Byte(11, 0), Byte(130, 0), Byte(131, 0)],
    ),
    (
        b":001 G003 J1 :000 J0 :003 G004 R :004 G005 R :005 G006 R :006 G007 R :007 G008 R :008 G009 R :009 G010 R :010 [[[[[[[[L5]]]]]]]] R",
        Level::Quick,
        &[],
        5,
        34,
        34,
        &[],
    ),
    (
        b":001 J1 :000 G003 SF000 J0 :003 L1 G004 + 1 R :004 I000 + 5 G005 E - 5 Z R :005 UF0100 R",
        Level::Slow,
        &[Input(0, 1)],
        7,
        14,
        14,
        &[Byte(0, 7), Byte(1, 0), Byte(10, 1)],
    ),
    (
        b":001 J1 :000 G003 SF000 J0 :003 L1 G004 + 1 R :004 I000 + 5 G005 E - 5 Z R :005 UF0100 R",
        Level::Slow,
        &[],
        65533,
        10,
        14,
        &[Byte(0, 253), Byte(1, 255)],
    ),
    (
        b":001 G199 U000 J1 :000 J0 :199 I000 SF000 E SF002 Z R",
        Level::Quick,
        &[],
        0,
        6,
        7,
        &[Byte(2, 0), Byte(3, 0), Byte(128, 1)],
    ),
];

#[test]
fn lists(rt: HostRuntime) -> Result<(), Fail> {
    for (row, (text, level, facts, op, steps, figure, after)) in ROWS.iter().enumerate() {
        let said = Pass {
            level: *level,
            facts,
            op: *op,
            steps: *steps,
            figure: *figure,
            after,
        };
        runs(&rt, row, text, said)?;
    }
    Ok(())
}
