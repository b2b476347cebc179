// Texts with what the linking rules find in them: the first tokens at fault by causes 9 to 12, counted from 0.
use reading::{Placed, read};
use rules::{clashing, misplaced, reached, repeated_label, unlinked};
use std::process::Abort;
use std::test::Fail;

// A text and what each of the four answers.
const LISTS: [(
    &[u8],
    Option<usize>,
    Option<usize>,
    Option<usize>,
    Option<usize>,
); 42] = [
    (b":001 J1 :000 J0", None, None, None, None),
    (b"", None, Some(0), None, None),
    (b":001 J1", None, Some(2), None, None),
    (b":000 J0", None, Some(2), None, None),
    (b":001 J1 :000 J0 :001 J1", Some(4), None, None, None),
    (b":003 R :003 R :003 R", Some(2), Some(6), None, None),
    (b":001 G003 J1 :000 J0 :003 R", None, None, None, None),
    (b":001 G003 J1 :000 J0", None, Some(1), None, None),
    (b":001 G004 G003 J1 :004 R", None, Some(2), None, None),
    (b":003 R :001 G003 J1 :000 J0", None, Some(3), None, None),
    (b":001 J1 :000 J0 :003 G003 R", None, Some(5), None, None),
    (
        b":003 R :001 G003 J1 :003 R :000 J0",
        Some(5),
        None,
        None,
        None,
    ),
    (b":001 J1 :000 V000 Z J0", None, None, Some(3), None),
    (b":001 J1 :000 NV000 Z J0", None, None, Some(3), None),
    (b":001 J1 :000 LV00 J0", None, None, Some(3), None),
    (b":001 J1 :000 NLV000 J0", None, None, Some(3), None),
    (b":001 J1 :000 L5 + LV00 J0", None, None, Some(5), None),
    (b":001 J1 :000 ST00 J0", None, None, Some(3), None),
    (b":001 J1 :000 NST19 J0", None, None, Some(3), None),
    (b":001 V000 LV00 ST00 Z J1 :000 J0", None, None, None, None),
    (b":001 J1 :000 LT00 LI00 I000 Z J0", None, None, None, None),
    (b":001 J1 :000 J0 :003 ST00 R", None, None, None, None),
    (b":001 G003 J1 :000 J0 :003 ST00 R", None, None, None, None),
    (
        b":001 G003 J1 :000 G003 J0 :003 ST00 R",
        None,
        None,
        Some(7),
        None,
    ),
    (
        b":001 J1 :000 G003 J0 :003 G004 R :004 ST00 R",
        None,
        None,
        Some(9),
        None,
    ),
    (
        b":001 J1 :000 G005 G003 J0 :003 ST00 R :005 R",
        None,
        None,
        Some(7),
        None,
    ),
    (
        b":004 ST00 R :003 G004 R :001 J1 :000 G003 J0",
        None,
        Some(4),
        Some(1),
        None,
    ),
    (b":001 SY00 J1 :000 SY00 J0", None, None, None, Some(4)),
    (b":000 SF000 J0 :001 NSF000 J1", None, None, None, Some(4)),
    (b":001 SY00 J1 :000 SY010 J0", None, None, None, Some(4)),
    (b":001 SY010 J1 :000 SY00 J0", None, None, None, Some(4)),
    (b":001 SY00 J1 :000 SY020 J0", None, None, None, None),
    (b":001 SF010 J1 :000 UF0117 J0", None, None, None, Some(4)),
    (b":001 SF010 J1 :000 UF0120 J0", None, None, None, None),
    (b":001 U000 J1 :000 D007 J0", None, None, None, Some(4)),
    (b":001 U000 J1 :000 D010 J0", None, None, None, None),
    (b":001 SF000 J1 :000 SY00 J0", None, None, None, None),
    (b":001 ST00 J1 :000 ST00 J0", None, None, Some(4), None),
    (
        b":001 G003 J1 :000 G003 J0 :003 UF0000 R",
        None,
        None,
        None,
        Some(7),
    ),
    (
        b":001 SF000 UF0000 J1 :000 LF000 F0000 Z J0",
        None,
        None,
        None,
        None,
    ),
    (
        b":001 SF000 J1 :000 J0 :003 SF000 R",
        None,
        None,
        None,
        None,
    ),
    (
        b":001 SF000 J1 :000 G003 J0 :003 DF0010 R",
        None,
        None,
        None,
        Some(7),
    ),
];

// The tokens of a text that can be read.
fn tokens_of<'m, 'a>(
    text: &'a [u8],
    memory: &'m mut [Placed<'a>; 2048],
) -> Result<&'m [Placed<'a>], Fail> {
    let count = read(text, memory)?;
    memory
        .get(..count)
        .ok_or_else(|| Fail::new("more tokens than memory"))
}

fn finds(
    rt: &impl Abort,
    row: usize,
    text: &[u8],
    repeated: Option<usize>,
    astray: Option<usize>,
    early: Option<usize>,
    shared: Option<usize>,
) -> Result<(), Fail> {
    let mut memory = [Placed::blank(); 2048];
    let tokens = tokens_of(text, &mut memory)?;
    assert_eq!(rt; repeated_label(tokens), repeated, "row {row}");
    assert_eq!(rt; unlinked(tokens), astray, "row {row}");
    assert_eq!(rt; misplaced(tokens), early, "row {row}");
    assert_eq!(rt; clashing(tokens), shared, "row {row}");
    Ok(())
}

#[test]
fn lists_with_their_faults(rt: HostRuntime) -> Result<(), Fail> {
    for (row, (text, repeated, astray, early, shared)) in LISTS.iter().enumerate() {
        finds(&rt, row, text, *repeated, *astray, *early, *shared)?;
    }
    Ok(())
}

#[test]
fn modules_that_are_reached(rt: HostRuntime) -> Result<(), Fail> {
    let mut memory = [Placed::blank(); 2048];
    let text = b":005 R :004 G005 R :001 G003 J1 :000 G004 J0 :003 R";
    let tokens = tokens_of(text, &mut memory)?;
    let slow = reached(tokens, 0);
    let quick = reached(tokens, 1);
    for (module, (slow, quick)) in slow.iter().zip(&quick).enumerate() {
        assert_eq!(rt; *slow, module == 0 || module == 4 || module == 5);
        assert_eq!(rt; *quick, module == 1 || module == 3);
    }
    Ok(())
}
