// Causes 1 to 8 come before those of linking, and of those an earlier cause at a later place before a later one.
use crate::verdict::refuse;
use std::test::Fail;

// A text, its cause, line and column.
const REFUSED: [(&[u8], u8, u32, u32); 23] = [
    (b":001 G003 J1 \x80", 2, 1, 14),
    (b":001 G003 J1 /* open", 3, 1, 14),
    (b":003 R :003 R 5O", 4, 1, 15),
    (b":001 G003 J1 J2", 5, 1, 14),
    (b":001 J1 :001 J1 :002 R", 5, 1, 17),
    (b":001 G002 J1 :000 J0", 5, 1, 6),
    (b":001 J1 :001 J1 L5", 7, 1, 17),
    (b":001 G003 J0", 7, 1, 11),
    (b":001 G003 J1 :000", 7, 1, 18),
    (b":001 G003 + [[[[[[[[[L5", 8, 1, 21),
    (b":001 G003 J1 :004 R :004 R", 9, 1, 21),
    (b":003 R :001 G003 J1 :003 R :000 J0", 9, 1, 21),
    (b":003 R :003 R", 9, 1, 8),
    (b":001 SF000 J1 :000 LV00 SF000 J0 :001 J1", 9, 1, 34),
    (b":000 LV00 J0 :001 G003 J1", 10, 1, 19),
    (b":000 ST00 J0", 10, 1, 13),
    (b":000 SF000 J0 :001 SF000 J1 :003 G003 R", 10, 1, 34),
    (b":001 SF000 G003 J1 :000 SF000 J0", 10, 1, 12),
    (b":001 SF000 J1 :000 SF000 LV00 J0", 11, 1, 26),
    (b":001 SF000 J1 :000 G003 SF000 J0 :003 ST00 R", 11, 1, 39),
    (
        b":001 G003 J1 :000 LV00 J0 :003 G004 R :004 G005 R :005 G006 R :006 G007 R :007 G008 R :008 G009 R :009 G010 R :010 G011 R :011 R",
        11,
        1,
        19,
    ),
    (
        b":001 G003 U000 J1 :000 U000 J0 :003 G004 R :004 G005 R :005 G006 R :006 G007 R :007 G008 R :008 G009 R :009 G010 R :010 G011 R :011 R",
        12,
        1,
        24,
    ),
    (
        b":001 G003 G012 J1 :000 J0 :003 G004 R :004 G005 R :005 G006 R :006 G007 R :007 G008 R :008 G009 R :009 G010 R :010 G011 R :011 R",
        10,
        1,
        11,
    ),
];

#[test]
fn order_refused(rt: HostRuntime) -> Result<(), Fail> {
    refuse(&rt, &REFUSED)
}
