// Figures of short lists.
use crate::verdict::accept;
use std::test::Fail;

// A text and the figures of :001 and :000.
const ACCEPTED: [(&[u8], u16, u16); 11] = [
    (b":001 L1 J1 :000 L1 + 2 J0", 2, 3),
    (b":001 [ L1 ] J1 :000 L1 + [ L2 ] J0", 4, 5),
    (b":001 [[L1] + [L2 A [L3]]] J1 :000 J0", 12, 1),
    (b":001 I000 Z J1 :000 I000 E Z J0", 2, 3),
    (b":001 I000 L1 Z J1 :000 I000 L1 E Z J0", 3, 4),
    (b":001 I000 E L1 Z J1 :000 I000 E L1 L2 Z J0", 3, 4),
    (b":001 I000 L1 E L1 L2 Z J1 :000 I000 L1 L2 E L1 Z J0", 4, 5),
    (b":001 I000 I001 L1 E L1 L2 L3 Z E L1 Z J1 :000 J0", 7, 1),
    (
        b":001 I000 G003 E G004 Z J1 :000 G004 G003 J0 :003 L1 L2 R :004 R",
        7,
        7,
    ),
    (b":001 < 5 SY00 ST00 U020 Z J1 :000 J0", 5, 1),
    (
        b":001 I000 U001 E D001 Z J1 :000 LI00 + LF010 SF010 SY02 J0",
        4,
        5,
    ),
];

#[test]
fn figures_accepted(rt: HostRuntime) -> Result<(), Fail> {
    accept(&rt, &ACCEPTED)
}
