// Checks lists: what is printed of each file.
use crate::words::LinkWords;
use linking::{Compiled, compile};
use reporting::files::Source;
use reporting::refusal::report;
use std::io;

// Whether a list is accepted.
pub(crate) fn check_list(rt: &impl Print, list: Source<'_>) -> io::Result<bool> {
    let Source { name, bytes: text } = list;
    let mut compiled = Compiled::empty();
    match compile(text, &mut compiled) {
        Ok(figures) => {
            println!(rt;
                "{name}: accepted, quick {} steps, slow {} steps",
                figures.quick, figures.slow
            )?;
            Ok(true)
        }
        Err(fault) => {
            report(rt, list, fault, &LinkWords { text, fault })?;
            Ok(false)
        }
    }
}
