// Brackets as loads and as operands.
use crate::rows::Fact::{Byte, Input, Timer};
use crate::rows::{Fact, bodies};
use std::test::Fail;

// The commands of :001, what is not 0 before a pass; then OP, the steps, the figure, and what the pass stores into.
const ROWS: [(&[u8], &[Fact], u16, u16, u16, &[Fact]); 19] = [
    (b"[ L5 ]", &[], 5, 4, 4, &[]),
    (b"L9 [ L5 ]", &[], 5, 5, 5, &[]),
    (b"[L5] + [L6]", &[], 11, 7, 7, &[]),
    (b"[ L5 + 1 A 4 ]", &[], 4, 6, 6, &[]),
    (b"[ [ L5 ] ]", &[], 5, 6, 6, &[]),
    (b"[ [ L5 ] + 5 ]", &[], 10, 7, 7, &[]),
    (b"+ [ L1 ]", &[], 1, 4, 4, &[]),
    (b"L10 - 3 - 1", &[], 6, 4, 4, &[]),
    (b"L10 - [ L3 - 1 ]", &[], 8, 6, 6, &[]),
    (b"L10 - [ L3 - [ L1 ] ]", &[], 8, 8, 8, &[]),
    (b"L.FF A [ L.0F O .F0 X [ L3 ] ]", &[], 252, 9, 9, &[]),
    (b"L65535 + [ LI000 + LI001 ]", &[Input(0, 3)], 1, 6, 6, &[]),
    (
        b"L0 - [ NLF010 ]",
        &[Byte(10, 255), Byte(11, 255)],
        0,
        5,
        5,
        &[],
    ),
    (b"L5 X [ NLI000 ]", &[], 4, 5, 5, &[]),
    (
        b"L.FFFF A [ LT00 - LT01 ]",
        &[Timer(0, 3), Timer(1, 5)],
        65534,
        6,
        6,
        &[],
    ),
    (
        b"L1 + [ L2 + [ L3 + [ L4 + [ L5 + [ L6 + [ L7 + [ L8 + [ L9 ] ] ] ] ] ] ] ]",
        &[],
        45,
        26,
        26,
        &[],
    ),
    (b"[[[[[[[[L5]]]]]]]]", &[], 5, 18, 18, &[]),
    (
        b"L100 - [ [ L1 + 2 ] + [ [ L3 ] - 4 ] ] + 1",
        &[],
        99,
        15,
        15,
        &[],
    ),
    (
        b"L6 O [ L3 ] A [ L5 ] X [ L1 ] - [ L2 ]",
        &[],
        2,
        14,
        14,
        &[],
    ),
];

#[test]
fn brackets(rt: HostRuntime) -> Result<(), Fail> {
    bodies(&rt, &ROWS)
}
