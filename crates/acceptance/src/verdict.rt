// Whether a text has the verdict of its row. The loops over rows stand beside their tables: a shared one would take the rows and
// the reader, and be longer than they are.
use faults::{Fault, Layer, Place};
use std::process::Abort;
use std::test::Fail;

// The text is refused by this cause, at this place. Cause, line and column and no struct: so a row of a table stays one line.
pub(crate) fn refuses<T: Drop, F: Fault<Place = Place>>(
    rt: &impl Abort,
    row: usize,
    answer: Result<T, F>,
    cause: u8,
    line: u32,
    column: u32,
) -> Result<(), Fail> {
    let Err(fault) = answer else {
        return Err(Fail::new(format_args!("row {row} is accepted")));
    };
    let layer = if cause > 6 {
        Layer::Grammar
    } else {
        Layer::Reading
    };
    assert_eq!(rt; fault.cause(), cause, "row {row}");
    assert_eq!(rt; fault.layer(), layer, "row {row}");
    assert_eq!(rt; fault.place(), Place { line, column }, "row {row}");
    Ok(())
}

// The text is accepted, with this many tokens or modules.
pub(crate) fn accepts<F: Fault>(
    rt: &impl Abort,
    row: usize,
    answer: Result<usize, F>,
    count: usize,
) -> Result<(), Fail> {
    let Ok(found) = answer else {
        return Err(Fail::new(format_args!("row {row} is refused")));
    };
    assert_eq!(rt; found, count, "row {row}");
    Ok(())
}
