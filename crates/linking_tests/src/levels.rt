// Cause 11: changes of inputs, and stores to timers, are for the quick level.
use crate::verdict::{accept, refuse};
use std::test::Fail;

// A text, its cause, line and column.
const REFUSED: [(&[u8], u8, u32, u32); 28] = [
    (b":001 J1 :000 LV000 J0", 11, 1, 14),
    (b":001 J1 :000 NLV000 J0", 11, 1, 14),
    (b":001 J1 :000 LV00 J0", 11, 1, 14),
    (b":001 J1 :000 NLV32 J0", 11, 1, 14),
    (b":001 J1 :000 V000 Z J0", 11, 1, 14),
    (b":001 J1 :000 NV337 Z J0", 11, 1, 14),
    (b":001 J1 :000 = LV00 Z J0", 11, 1, 16),
    (b":001 J1 :000 <= NLV12 Z J0", 11, 1, 17),
    (b":001 J1 :000 L5 A LV000 J0", 11, 1, 19),
    (b":001 J1 :000 L5 X NLV20 J0", 11, 1, 19),
    (b":001 J1 :000 [LV00] J0", 11, 1, 15),
    (b":001 J1 :000 L1 + [L2 - LV000] J0", 11, 1, 25),
    (b":001 J1 :000 ST00 J0", 11, 1, 14),
    (b":001 J1 :000 NST19 J0", 11, 1, 14),
    (b":000 ST05 J0 :001 J1", 11, 1, 6),
    (b":001 J1 :000 I000 ST00 Z J0", 11, 1, 19),
    (b":001 J1 :000 I000 E LV00 Z J0", 11, 1, 21),
    (b":001 J1 :000 NI000 I000 L1 E\nV001 Z Z Z J0", 11, 2, 1),
    (b":001 J1 :000 LT00 LI00 ST00 LV00 J0", 11, 1, 24),
    (b":001 LV00 ST00 J1 :000 LV00 J0", 11, 1, 24),
    (b":001 J1 :000 G003 J0 :003 ST00 R", 11, 1, 27),
    (
        b":001 J1 :000 G003 J0 :003 G004 R :004 NV000 Z R",
        11,
        1,
        39,
    ),
    (b":001 J1 :000 I000 E G003 Z J0 :003 LV000 R", 11, 1, 36),
    (b":001 G003 J1 :000 G003 J0 :003 ST00 R", 11, 1, 32),
    (
        b":001 G003 J1 :000 G004 J0 :003 G004 R :004 = LV10 Z R",
        11,
        1,
        46,
    ),
    (
        b":001 J1 :000 G005 G003 J0 :003 ST00 R :005 LV00 R",
        11,
        1,
        32,
    ),
    (b":001 J1 :000 G003 LV00 J0 :003 ST00 R", 11, 1, 19),
    (b":000 G003 LV00 J0 :003 ST00 R :001 J1", 11, 1, 11),
];

// A text and the figures of :001 and :000.
const ACCEPTED: [(&[u8], u16, u16); 9] = [
    (
        b":001 LV000 NLV00 V000 NV000 Z Z = LV00 Z ST00 NST19 J1 :000 J0",
        8,
        1,
    ),
    (b":001 J1 :000 LT00 = LT19 NLT05 Z LI00 I000 Z J0", 1, 6),
    (b":001 G003 J1 :000 J0 :003 LV00 ST00 R", 5, 1),
    (b":001 G003 J1 :000 J0 :003 G004 R :004 V000 ST00 Z R", 7, 1),
    (b":001 J1 :000 J0 :003 LV00 ST00 V000 Z R", 1, 1),
    (b":001 J1 :000 G003 J0 :003 R :004 LV00 ST00 R", 1, 3),
    (b":001 J1 :000 J0 :003 G004 R :004 ST00 R", 1, 1),
    (b":004 ST00 R :001 J1 :000 J0", 1, 1),
    (b":001 ST00 J1 :000 LT00 SF000 J0", 2, 3),
];

#[test]
fn levels_refused(rt: HostRuntime) -> Result<(), Fail> {
    refuse(&rt, &REFUSED)
}

#[test]
fn levels_accepted(rt: HostRuntime) -> Result<(), Fail> {
    accept(&rt, &ACCEPTED)
}
