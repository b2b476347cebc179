// Comparisons on either side of their boundaries.
use crate::rows::Fact::{Byte, Input, Previous, Timer};
use crate::rows::{Fact, bodies};
use std::test::Fail;

// The commands of :001, what is not 0 before a pass; then OP, the steps, the figure, and what the pass stores into.
const ROWS: [(&[u8], &[Fact], u16, u16, u16, &[Fact]); 32] = [
    (b"L4 < 5 L9 Z", &[], 9, 4, 4, &[]),
    (b"L5 < 5 L9 Z", &[], 5, 3, 4, &[]),
    (b"L6 < 5 L9 Z", &[], 6, 3, 4, &[]),
    (b"L4 > 5 L9 Z", &[], 4, 3, 4, &[]),
    (b"L5 > 5 L9 Z", &[], 5, 3, 4, &[]),
    (b"L6 > 5 L9 Z", &[], 9, 4, 4, &[]),
    (b"L4 = 5 L9 Z", &[], 4, 3, 4, &[]),
    (b"L5 = 5 L9 Z", &[], 9, 4, 4, &[]),
    (b"L6 = 5 L9 Z", &[], 6, 3, 4, &[]),
    (b"L4 <= 5 L9 Z", &[], 9, 4, 4, &[]),
    (b"L5 <= 5 L9 Z", &[], 9, 4, 4, &[]),
    (b"L6 <= 5 L9 Z", &[], 6, 3, 4, &[]),
    (b"L4 >= 5 L9 Z", &[], 4, 3, 4, &[]),
    (b"L5 >= 5 L9 Z", &[], 9, 4, 4, &[]),
    (b"L6 >= 5 L9 Z", &[], 9, 4, 4, &[]),
    (b"< 0 L9 Z", &[], 0, 2, 3, &[]),
    (b">= 0 L9 Z", &[], 9, 3, 3, &[]),
    (b"L65535 > 65534 L9 Z", &[], 9, 4, 4, &[]),
    (b"L65535 > .FFFF L9 Z", &[], 65535, 3, 4, &[]),
    (b"L.8000 > .7FFF L9 Z", &[], 9, 4, 4, &[]),
    (b"L1 < .FFFF L9 Z", &[], 9, 4, 4, &[]),
    (b"L5 = LI00 L9 Z", &[Input(0, 5)], 9, 4, 4, &[]),
    (b"L5 < LT00 L9 Z", &[Timer(0, 6)], 9, 4, 4, &[]),
    (b"L5 < LT00 L9 Z", &[Timer(0, 5)], 5, 3, 4, &[]),
    (
        b"L5 >= NLF010 L9 Z",
        &[Byte(10, 250), Byte(11, 255)],
        9,
        4,
        4,
        &[],
    ),
    (
        b"L5 >= NLF010 L9 Z",
        &[Byte(10, 249), Byte(11, 255)],
        5,
        3,
        4,
        &[],
    ),
    (
        b"L256 <= LV02 L9 Z",
        &[Input(1, 3840), Previous(1, 3584)],
        9,
        4,
        4,
        &[],
    ),
    (
        b"L257 <= LV02 L9 Z",
        &[Input(1, 3840), Previous(1, 3584)],
        257,
        3,
        4,
        &[],
    ),
    (
        b"L2 > NLY32 L9 E L8 Z",
        &[Byte(142, 254), Byte(143, 255)],
        9,
        5,
        5,
        &[],
    ),
    (
        b"L1 > NLY32 L9 E L8 Z",
        &[Byte(142, 254), Byte(143, 255)],
        8,
        4,
        5,
        &[],
    ),
    (b"= LT19 L9 Z", &[], 9, 3, 3, &[]),
    (
        b"LI00 = LI02 > LI32 L1 E L2 Z Z",
        &[Input(0, 7), Input(1, 7)],
        1,
        6,
        6,
        &[],
    ),
];

#[test]
fn comparisons(rt: HostRuntime) -> Result<(), Fail> {
    bodies(&rt, &ROWS)
}
