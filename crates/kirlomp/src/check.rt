// Checks lists: what is printed of each file.
use grammar::parse;
use reading::Placed;
use reporting::files::Source;
use reporting::refusal::report;
use reporting::words::Words;
use std::io;

// Whether a list is well formed.
pub(crate) fn check_list(rt: &impl Print, list: Source<'_>) -> io::Result<bool> {
    let Source { name, bytes: text } = list;
    let mut memory = [Placed::blank(); 2048];
    match parse(text, &mut memory) {
        Ok(shape) => {
            println!(rt; "{name}: well formed, {} modules", shape.modules)?;
            Ok(true)
        }
        Err(fault) => {
            report(rt, list, fault, &Words { text, fault })?;
            Ok(false)
        }
    }
}
