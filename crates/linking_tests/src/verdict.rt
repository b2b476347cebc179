// Whether a text has the verdict of its row.
use faults::{Fault, Layer, Place};
use linking::{Compiled, Figures, compile};
use std::process::Abort;
use std::test::Fail;

// A record that is not the one of two empty modules.
fn taken(rt: &impl Abort) -> Result<Compiled, Fail> {
    let mut record = Compiled::empty();
    let figures = compile(b":000 L1 J0 :001 L1 L2 J1", &mut record)?;
    assert_eq!(rt; figures, Figures { quick: 3, slow: 2 });
    Ok(record)
}

fn layer_of(cause: u8) -> Layer {
    match cause {
        1..=6 => Layer::Reading,
        7 | 8 => Layer::Grammar,
        _ => Layer::Linking,
    }
}

// The text is refused so, and the record is then that of two empty modules. Cause, line and column and no struct: so a row of a
// table stays one line.
pub(crate) fn refuses(
    rt: &impl Abort,
    row: usize,
    text: &[u8],
    cause: u8,
    line: u32,
    column: u32,
) -> Result<(), Fail> {
    let mut record = taken(rt)?;
    let Err(fault) = compile(text, &mut record) else {
        return Err(Fail::new(format_args!("row {row}: accepted")));
    };
    assert_eq!(rt; fault.cause(), cause, "row {row}");
    assert_eq!(rt; fault.layer(), layer_of(cause), "row {row}");
    assert_eq!(rt; fault.place(), Place { line, column }, "row {row}");
    assert_eq!(rt;
        record.figures(),
        Figures { quick: 1, slow: 1 },
        "row {row}"
    );
    assert_eq!(rt; record.program().len(), 3, "row {row}");
    assert_eq!(rt; record.program().quick(), 0, "row {row}");
    assert_eq!(rt; record.program().slow(), 1, "row {row}");
    Ok(())
}

// The text is accepted with these figures, and the record has them.
pub(crate) fn accepts(
    rt: &impl Abort,
    row: usize,
    text: &[u8],
    quick: u16,
    slow: u16,
) -> Result<(), Fail> {
    let mut record = taken(rt)?;
    assert_eq!(rt;
        compile(text, &mut record),
        Ok(Figures { quick, slow }),
        "row {row}"
    );
    assert_eq!(rt; record.figures(), Figures { quick, slow }, "row {row}");
    Ok(())
}

pub(crate) fn refuse(rt: &impl Abort, rows: &[(&[u8], u8, u32, u32)]) -> Result<(), Fail> {
    for (row, (text, cause, line, column)) in rows.iter().enumerate() {
        refuses(rt, row, text, *cause, *line, *column)?;
    }
    Ok(())
}

pub(crate) fn accept(rt: &impl Abort, rows: &[(&[u8], u16, u16)]) -> Result<(), Fail> {
    for (row, (text, quick, slow)) in rows.iter().enumerate() {
        accepts(rt, row, text, *quick, *slow)?;
    }
    Ok(())
}
