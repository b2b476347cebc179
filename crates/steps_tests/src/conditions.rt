// Tests of bits, and conditions with and without `E`.
use crate::rows::Fact::{Byte, Input, Previous};
use crate::rows::{Fact, bodies};
use std::test::Fail;

// The commands of :001, what is not 0 before a pass; then OP, the steps, the figure, and what the pass stores into.
const ROWS: [(&[u8], &[Fact], u16, u16, u16, &[Fact]); 37] = [
    (b"I000 L9 Z", &[Input(0, 1)], 9, 3, 3, &[]),
    (b"I000 L9 Z", &[], 0, 2, 3, &[]),
    (b"NI000 L9 Z", &[Input(0, 1)], 0, 2, 3, &[]),
    (b"NI000 L9 Z", &[], 9, 3, 3, &[]),
    (b"I337 L9 Z", &[Input(7, 32768)], 9, 3, 3, &[]),
    (b"Y000 L9 Z", &[Byte(128, 1)], 9, 3, 3, &[]),
    (b"Y000 L9 Z", &[Byte(128, 254)], 0, 2, 3, &[]),
    (b"NY337 L9 Z", &[Byte(143, 127)], 9, 3, 3, &[]),
    (b"NY337 L9 Z", &[Byte(143, 128)], 0, 2, 3, &[]),
    (b"V000 L9 Z", &[Input(0, 1)], 9, 3, 3, &[]),
    (b"V000 L9 Z", &[Input(0, 1), Previous(0, 1)], 0, 2, 3, &[]),
    (b"NV000 L9 Z", &[Input(0, 1), Previous(0, 1)], 9, 3, 3, &[]),
    (b"NV000 L9 Z", &[Previous(0, 1)], 0, 2, 3, &[]),
    (b"F0000 L9 Z", &[Byte(0, 1)], 9, 3, 3, &[]),
    (b"F0000 L9 Z", &[], 0, 2, 3, &[]),
    (b"NF1277 L9 Z", &[], 9, 3, 3, &[]),
    (b"NF1277 L9 Z", &[Byte(127, 128)], 0, 2, 3, &[]),
    (b"I000 Z", &[Input(0, 1)], 0, 2, 2, &[]),
    (b"I000 Z", &[], 0, 2, 2, &[]),
    (b"I000 E Z", &[Input(0, 1)], 0, 3, 3, &[]),
    (b"I000 E Z", &[], 0, 2, 3, &[]),
    (b"I000 L1 E L2 L3 Z", &[Input(0, 1)], 1, 4, 4, &[]),
    (b"I000 L1 E L2 L3 Z", &[], 3, 4, 4, &[]),
    (b"L7 I000 Z + 1", &[Input(0, 1)], 8, 4, 4, &[]),
    (b"L7 I000 E Z + 1", &[Input(0, 1)], 8, 5, 5, &[]),
    (b"L7 I000 E - 2 Z + 1", &[], 6, 5, 5, &[]),
    (
        b"I000 I001 L1 E L2 Z E I002 L3 E L4 L5 Z Z",
        &[Input(0, 3)],
        1,
        6,
        6,
        &[],
    ),
    (
        b"I000 I001 L1 E L2 Z E I002 L3 E L4 L5 Z Z",
        &[Input(0, 1)],
        2,
        5,
        6,
        &[],
    ),
    (
        b"I000 I001 L1 E L2 Z E I002 L3 E L4 L5 Z Z",
        &[Input(0, 4)],
        3,
        5,
        6,
        &[],
    ),
    (
        b"I000 I001 L1 E L2 Z E I002 L3 E L4 L5 Z Z",
        &[],
        5,
        5,
        6,
        &[],
    ),
    (b"I000 I001 L1 Z L2 Z L3", &[Input(0, 3)], 3, 6, 6, &[]),
    (b"I000 I001 L1 Z L2 Z", &[Input(0, 1)], 2, 4, 5, &[]),
    (b"I000 I001 L1 Z L2 Z", &[], 0, 2, 5, &[]),
    (b"U000 Y000 L1 E L2 Z", &[], 1, 5, 5, &[Byte(128, 1)]),
    (b"L1 SF0000 NF0000 L5 E L6 Z", &[], 6, 5, 6, &[Byte(0, 1)]),
    (
        b"I000 I000 I000 I000 I000 I000 I000 I000 I000 I000 I000 I000 I000 I000 I000 I000 L1 E Z E Z E Z E Z E Z E Z E Z E Z E Z E Z E Z E Z E Z E Z E Z E Z",
        &[Input(0, 1)],
        1,
        34,
        34,
        &[],
    ),
    (
        b"I000 I000 I000 I000 I000 I000 I000 I000 I000 I000 I000 I000 I000 I000 I000 I000 L1 E Z E Z E Z E Z E Z E Z E Z E Z E Z E Z E Z E Z E Z E Z E Z E Z",
        &[],
        0,
        2,
        34,
        &[],
    ),
];

#[test]
fn conditions(rt: HostRuntime) -> Result<(), Fail> {
    bodies(&rt, &ROWS)
}
