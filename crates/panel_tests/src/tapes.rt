// Tapes: lengths, lines that are refused, and what a tape says line by line.
use crate::verdict::{refused, refuses};
use panel::Panel;
use std::process::Abort;
use std::test::Fail;
use tape::{Tape, write_line};

const ZEROS: &[u8; 49] = b"     0     0     0     0     0     0     0     0\n";

const BLANK: &[u8; 49] = b"     0     0     0     0     0     0     0      \n";

const RETURN: &[u8; 49] = b"     0     0     0     0     0     0     0     0\r";

// A line without its line feed, and less of it: 1,337 lines and these are 65,536 and 65,537 bytes.
const CUT: &[u8; 48] = b"     0     0     0     0     0     0     0     0";

const PART: &[u8; 23] = b"     0     0     0     ";

const MORE: &[u8; 24] = b"     0     0     0     0";

fn accepts(rt: &impl Abort, bytes: &[u8], lines: usize) -> Result<(), Fail> {
    assert_eq!(rt; Tape::new(bytes)?.lines(), lines);
    Ok(())
}

// Some good lines, then other bytes.
fn tape_of(rt: &HostRuntime, lines: usize, behind: &[u8]) -> Result<Vec<u8>, Fail> {
    let mut bytes = Vec::new(rt.alloc());
    for _ in 0..lines {
        bytes.extend_from_slice(ZEROS)?;
    }
    bytes.extend_from_slice(behind)?;
    Ok(bytes)
}

#[test]
fn lengths(rt: HostRuntime) -> Result<(), Fail> {
    accepts(&rt, b"", 0)?;
    refuses(&rt, b"\n", 0)?;
    refuses(&rt, b" ", 0)?;
    accepts(&rt, ZEROS, 1)?;
    refuses(&rt, CUT, 0)?;
    refuses(&rt, tape_of(&rt, 1, b"\n")?.as_slice(), 0)?;
    refuses(&rt, tape_of(&rt, 2, CUT)?.as_slice(), 0)?;
    accepts(&rt, tape_of(&rt, 1337, b"")?.as_slice(), 1337)?;
    refuses(&rt, tape_of(&rt, 1337, b"\n")?.as_slice(), 0)?;
    refuses(&rt, tape_of(&rt, 1337, PART)?.as_slice(), 0)?;
    refuses(&rt, tape_of(&rt, 1337, MORE)?.as_slice(), 0)?;
    refuses(&rt, tape_of(&rt, 1338, b"")?.as_slice(), 0)?;
    refuses(&rt, tape_of(&rt, 1336, BLANK)?.as_slice(), 1337)?;
    refuses(&rt, tape_of(&rt, 1337, BLANK)?.as_slice(), 0)
}

#[test]
fn bad_lines(rt: HostRuntime) -> Result<(), Fail> {
    refuses(&rt, BLANK, 1)?;
    refuses(&rt, RETURN, 1)?;
    let mut two = tape_of(&rt, 1, BLANK)?;
    refuses(&rt, two.as_slice(), 2)?;
    two.extend_from_slice(RETURN)?;
    refuses(&rt, two.as_slice(), 2)?;
    two.extend_from_slice(ZEROS)?;
    refuses(&rt, two.as_slice(), 2)?;
    refuses(&rt, tape_of(&rt, 5, RETURN)?.as_slice(), 6)
}

// A carriage return before each line feed makes lines of 50 bytes.
#[test]
fn carriage_returns(rt: HostRuntime) -> Result<(), Fail> {
    let mut bytes = Vec::new(rt.alloc());
    for n in 0..49u32 {
        bytes.extend_from_slice(CUT)?;
        bytes.extend_from_slice(b"\r\n")?;
        refuses(&rt, bytes.as_slice(), if n == 48 { 1 } else { 0 })?;
    }
    Ok(())
}

const ROWS: [[Option<u16>; 8]; 3] = [
    [
        Some(1),
        Some(0),
        None,
        Some(65535),
        Some(10),
        None,
        Some(999),
        Some(7),
    ],
    [None; 8],
    [
        Some(12345),
        None,
        Some(2),
        Some(3),
        Some(4),
        Some(5),
        Some(6),
        Some(10000),
    ],
];

fn says(rt: &impl Abort, tape: &mut Tape<'_>, row: &[Option<u16>; 8]) -> Result<(), Fail> {
    for (word, entry) in (0u8..).zip(row) {
        assert_eq!(rt; tape.read(word).ok(), *entry);
    }
    refused(rt, tape.read(8), 16, 8)
}

// What is written is read again, line by line, and all is silent at both ends.
#[test]
fn moves(rt: HostRuntime) -> Result<(), Fail> {
    let mut bytes = Vec::new(rt.alloc());
    for row in &ROWS {
        bytes.extend_from_slice(&write_line(row))?;
    }
    let mut tape = Tape::new(bytes.as_slice())?;
    assert_eq!(rt; tape.line(), 0);
    says(&rt, &mut tape, &[None; 8])?;
    assert!(rt; tape.put(3, 9).is_ok());
    for (n, row) in ROWS.iter().enumerate() {
        tape.move_on();
        assert_eq!(rt; tape.line(), n + 1);
        says(&rt, &mut tape, row)?;
    }
    for _ in 0..3 {
        tape.move_on();
        assert_eq!(rt; tape.line(), 4);
        says(&rt, &mut tape, &[None; 8])?;
    }
    assert_eq!(rt; *tape.outputs(), [0, 0, 0, 9, 0, 0, 0, 0]);
    Ok(())
}

// A tape with no lines is behind its last line after one move.
#[test]
fn no_lines(rt: HostRuntime) -> Result<(), Fail> {
    let mut tape = Tape::new(b"")?;
    says(&rt, &mut tape, &[None; 8])?;
    tape.move_on();
    tape.move_on();
    assert_eq!(rt; tape.line(), 1);
    says(&rt, &mut tape, &[None; 8])
}

#[test]
fn written_lines(rt: HostRuntime) {
    assert_eq!(rt; write_line(&[Some(0); 8]), *ZEROS);
    assert_eq!(rt;
        write_line(&[None; 8]),
        *b"     -     -     -     -     -     -     -     -\n"
    );
    assert_eq!(rt;
        write_line(&[
            Some(9),
            Some(10),
            Some(99),
            Some(100),
            Some(999),
            Some(1000),
            Some(9999),
            Some(10000),
        ],),
        *b"     9    10    99   100   999  1000  9999 10000\n"
    );
    assert_eq!(rt;
        write_line(&[Some(65535); 8]),
        *b" 65535 65535 65535 65535 65535 65535 65535 65535\n"
    );
}
