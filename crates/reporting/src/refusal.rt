// How a fault is printed.
use crate::files::Source;
use crate::location::Location;
use faults::{Fault, Place};
use std::fmt::Display;
use std::io;

// The fault of a file, on one line.
pub fn print_fault<F: Fault>(
    rt: &impl Print,
    file: &str,
    fault: F,
    words: &impl Display,
) -> io::Result<()> {
    println!(rt;
        "{file}:{}: refused by {} ({}): {words}",
        fault.place(),
        fault.cause(),
        fault.layer()
    )
}

// The line that a place of a list stands in, and a mark under the column. The rules give a list that is too long the
// place 0, 0, so no line is shown.
fn print_source(rt: &impl Print, at: Location<'_>) -> io::Result<()> {
    if at.place.line == 0 {
        return Ok(());
    }
    println!(rt; "{}", at.marked())
}

// The fault of a list, the line that it stands in, and a mark under the column.
pub fn report<F: Fault<Place = Place>>(
    rt: &impl Print,
    list: Source<'_>,
    fault: F,
    words: &impl Display,
) -> io::Result<()> {
    print_fault(rt, list.name, fault, words)?;
    let text = list.bytes;
    let place = fault.place();
    print_source(rt, Location { text, place })
}
