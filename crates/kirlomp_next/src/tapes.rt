// Checks tapes, and makes them from plain lines of numbers.
use reporting::excerpt::Excerpt;
use reporting::files::{Source, with_file};
use reporting::refusal::print_fault;
use std::io::{Read, Write};
use std::rt::Runtime;
use std::str::from_utf8;
use std::{fmt, io};
use tape::{Tape, TapeFault, write_line};

// The most bytes of a tape.
pub(crate) const LONGEST_TAPE: u64 = 65536;

// A function and no `Display`, which only the crate of the fault could give it.
fn tape_words(fault: TapeFault) -> &'static str {
    match fault {
        TapeFault::Length => "a tape has lines of 49 bytes and at most 65536 bytes",
        TapeFault::Line(_) =>
            "this is no line of eight fields of six columns with a line feed behind them",
    }
}

// Whether a tape is accepted.
pub(crate) fn check_tape(rt: &impl Print, file: Source<'_>) -> io::Result<bool> {
    let Source { name, bytes } = file;
    match Tape::new(bytes) {
        Ok(tape) => {
            println!(rt; "{name}: tape, {} lines", tape.lines())?;
            Ok(true)
        }
        Err(fault) => {
            print_fault(rt, name, fault, &tape_words(fault))?;
            Ok(false)
        }
    }
}

// What is wrong with a plain line: how many entries it has, or one that is no entry.
#[derive(Drop)]
enum PlainFault<'a> {
    Count(usize),
    Entry(&'a str),
}

impl<'a> fmt::Display for PlainFault<'a> {
    fn fmt<W: fmt::Write>(&self, f: &mut fmt::Formatter<W>) -> fmt::Result {
        match self {
            PlainFault::Count(count) => write!(f, "a line has 8 entries, this one {count}"),
            PlainFault::Entry(word) => {
                let word = Excerpt(word.as_bytes());
                write!(f, "`{word}` is neither a number up to 65535 nor a dash")
            }
        }
    }
}

// A number, or a dash for a silent input.
fn entry_of(word: &str) -> Result<Option<u16>, PlainFault<'_>> {
    if word == "-" {
        return Ok(None);
    }
    match word.parse::<u16>() {
        Ok(number) if !word.starts_with('+') => Ok(Some(number)),
        _ => Err(PlainFault::Entry(word)),
    }
}

// The eight entries of a plain line, which blanks separate. Words behind the eighth are read too, since of two faults the bad
// word is told and not the count; a `zip` of entries and words would pass them over. They are counted in the same pass: to
// split a long line is most of the work.
fn entries_of(line: &str) -> Result<[Option<u16>; 8], PlainFault<'_>> {
    let mut entries = [None; 8];
    let mut count = 0usize;
    for word in line.split_whitespace() {
        let entry = entry_of(word)?;
        if let Some(place) = entries.get_mut(count) {
            *place = entry;
        }
        count = count.saturating_add(1);
    }
    match count {
        8 => Ok(entries),
        _ => Err(PlainFault::Count(count)),
    }
}

// Writes the tape of plain lines; nothing where a line is bad.
fn make_lines(rt: &impl Runtime, name: &str, text: &str) -> io::Result<bool> {
    let mut tape = Vec::new(rt.alloc());
    for (number, line) in (1u64..).zip(text.lines()) {
        match entries_of(line) {
            Ok(entries) => tape.extend_from_slice(&write_line(&entries))?,
            Err(fault) => {
                eprintln!(rt; "{name}:{number}: no tape is made: {fault}")?;
                return Ok(false);
            }
        }
    }
    if tape.len() as u64 > LONGEST_TAPE {
        eprintln!(rt; "{name}:1338: no tape is made: a tape has at most 1337 lines")?;
        return Ok(false);
    }
    io::writer(rt).write_all(tape.as_slice())?;
    Ok(true)
}

// Writes the tape of a file of plain lines, where the file is text.
fn make_text(rt: &impl Runtime, plain: Source<'_>) -> io::Result<bool> {
    let Source { name, bytes } = plain;
    match from_utf8(bytes) {
        Ok(text) => make_lines(rt, name, text),
        Err(_) => {
            eprintln!(rt; "{name}:0: no tape is made: this is no text")?;
            Ok(false)
        }
    }
}

// Makes a tape from a file, or from standard input where none is given.
pub(crate) fn make_tape(rt: &impl Runtime, file: Option<String>) -> io::Result<bool> {
    match file {
        Some(file) => with_file(rt, file.as_str(), u64::MAX, |plain| make_text(rt, plain)),
        None => {
            let mut bytes = Vec::new(rt.alloc());
            rt.reader().read_to_end(&mut bytes)?;
            let plain = Source {
                name: "standard input",
                bytes: bytes.as_slice(),
            };
            make_text(rt, plain)
        }
    }
}
