// Cuts a text into words, past white space and comments.
#![tactic(auto)]

ghost use Rattle.std.specs.Prelude.{◌≡◌, ◌<◌, ◌≤◌, length, IfSome};
ghost use Rattle.std.specs.Option.{unwrap_or};
ghost use Rattle.scanning.specs.Text.{longest, past, in_run};
ghost use Rattle.scanning.specs.Pieces.{OneVerdict};
ghost use Rattle.scanning.specs.Scan.{Reached, end_of, mode_after, run_of, word_len, scan_of, counted, CountsVerdict};

pub mod scanner;

use faults::Place;
pub use scanner::Scanner;

// How far a text is read: the next byte's index, and its place.
#[derive(Clone, Copy, Debug)]
pub struct Cursor {
    pub at: usize,
    pub place: Place,
}

#[derive(Clone, Copy)]
pub struct Word<'a> {
    pub part: &'a [u8],
    pub place: Place,
}

// A text of too many bytes, a byte that may stand nowhere, or a comment that is not closed, at its opening.
#[derive(Clone, Copy, Debug, PartialEq, Eq)]
pub enum ScanFault {
    TooLong,
    Byte(Place),
    Unclosed(Place),
}

// What is being skipped: white space, a comment of a line, the star of `/*`, a comment in slashes, or the slash of `*/`. One in
// slashes keeps the place that it was opened at.
#[derive(Clone, Copy)]
enum Mode {
    Between,
    Line,
    Opening(Place),
    Block(Place),
    Closing,
}

fn place_past(place: Place, b: u8) -> Place
    requires { Reached place longest }
    ensures { result ≡ past place b }
{
    if b == b'\n' {
        Place {
            line: place.line + 1,
            column: 1,
        }
    } else {
        Place {
            column: place.column + 1,
            ..place
        }
    }
}

// What is skipped behind a byte; nothing where the byte is not skipped. The definitions read 0 where no byte stands ahead.
fn mode_after(mode: Mode, place: Place, b: u8, ahead: Option<u8>) -> Option<Mode>
    ensures { result ≡ mode_after mode place b (unwrap_or ahead 0) }
{
    match mode {
        Mode::Between => match (b, ahead) {
            (b' ' | b'\t' | b'\n' | b'\r', _) => Some(Mode::Between),
            (b';', _) => Some(Mode::Line),
            (b'/', Some(b'*')) => Some(Mode::Opening(place)),
            _ => None,
        },
        Mode::Line if b == b'\n' => Some(Mode::Between),
        Mode::Line => Some(Mode::Line),
        Mode::Opening(opened) => Some(Mode::Block(opened)),
        Mode::Block(_) if b == b'*' && ahead == Some(b'/') => Some(Mode::Closing),
        Mode::Block(opened) => Some(Mode::Block(opened)),
        Mode::Closing => Some(Mode::Between),
    }
}

// What the end of the text means.
fn ended(mode: Mode, here: Cursor) -> Result<Cursor, ScanFault>
    ensures { result ≡ end_of mode here }
{
    match mode {
        Mode::Between | Mode::Line | Mode::Closing => Ok(here),
        Mode::Opening(opened) | Mode::Block(opened) => Err(ScanFault::Unclosed(opened)),
    }
}

// Whether a byte, with the one behind it, goes on a run.
fn in_run(b: u8, ahead: Option<u8>) -> bool
    ensures { result ≡ in_run b (unwrap_or ahead 0) }
{
    match b {
        b'[' | b']' | b';' => false,
        b'/' => ahead != Some(b'*'),
        _ => b.is_ascii_graphic(),
    }
}

// How many bytes at the front go on a run.
fn run_len(bytes: &[u8]) -> usize
    ensures is { result ≡ run_of bytes.now }
    ensures within { result ≤ length bytes.now }
{
    for (n, &b) in bytes.iter().enumerate() {
        if !in_run(b, bytes.get(n + 1).copied()) {
            return n;
        }
    }
    bytes.len()
}

// How long the word at the front is; nothing where its first byte is refused.
fn word_len(bytes: &[u8]) -> Option<usize>
    ensures is { unwrap_or result 0 ≡ word_len bytes.now }
    ensures some { IfSome result (λ n. (0 < n) × (n ≤ length bytes.now)) }
{
    match bytes {
        [b'[' | b']', ..] => Some(1),
        _ => Some(run_len(bytes)).filter(|&n| n > 0),
    }
}

// How many words a text has.
pub fn count_words(text: &[u8]) -> Result<usize, ScanFault>
    ensures is { result ≡ counted (scan_of text.now) }
    ensures verdict { CountsVerdict text.now result }
    ensures one { OneVerdict text.now }
{
    let mut scanner = Scanner::new(text);
    // A loop and no iterator's `count`: a fault ends it.
    let mut n = 0;
    while let Some(_word) = scanner.next_word()? {
        n += 1;
    }
    Ok(n)
}
