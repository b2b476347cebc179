// Whether a call has the answer of its row.
use faults::{Fault, Layer};
use std::fmt::Debug;
use std::process::Abort;
use std::test::Fail;
use tape::Tape;

// The panels refuse by this cause, at this place.
pub(crate) fn refused<T: Drop, F: Fault>(
    rt: &impl Abort,
    answer: Result<T, F>,
    cause: u8,
    place: F::Place,
) -> Result<(), Fail>
where
    F::Place: PartialEq + Debug + Drop,
{
    let Err(fault) = answer else {
        return Err(Fail::new("not refused"));
    };
    assert_eq!(rt; fault.cause(), cause);
    assert_eq!(rt; fault.place(), place);
    assert_eq!(rt; fault.layer(), Layer::Panel);
    Ok(())
}

// Bytes are no tape, by this line.
pub(crate) fn refuses(rt: &impl Abort, bytes: &[u8], line: u32) -> Result<(), Fail> {
    refused(rt, Tape::new(bytes), 17, line)
}
