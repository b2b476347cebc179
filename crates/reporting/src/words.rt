// What is wrong with a list, in plain words.
ghost use Rattle.std.specs.Prelude.{true, IfSome};
ghost use Rattle.scanning.specs.Scan.{origin};
ghost use Rattle.reporting.specs.Search.{FirstFrom};

use crate::excerpt::Excerpt;
use crate::location::Location;
use grammar::GrammarFault;
use reading::ReadFault;
use scanning::{ScanFault, Scanner, Word};
use std::fmt;

// The most bytes of a word that a message shows.
const SHOWN: usize = 40;

// The first word of a text for which a test holds; none where the text cannot be read so far.
pub fn find_word<'a, F: Fn(Word<'a>) -> bool>(text: &'a [u8], holds: F) -> Option<Word<'a>>
    requires { F.IsAlwaysCallable holds }
    ensures met { IfSome result (λ w. F.post holds w true) }
    ensures first { FirstFrom (F.post holds) text.now origin result }
{
    let mut scanner = Scanner::new(text);
    while let Ok(Some(word)) = scanner.next_word() {
        if holds(word) {
            return Some(word);
        }
    }
    None
}

// A word of a list, cut off where it is long.
#[derive(Drop)]
pub struct Quoted<'a>(pub &'a [u8]);

impl<'a> fmt::Display for Quoted<'a> {
    fn fmt<W: fmt::Write>(&self, f: &mut fmt::Formatter<W>) -> fmt::Result {
        let start = &self.0[..self.0.len().min(SHOWN)];
        let more = if start.len() < self.0.len() {
            "..."
        } else {
            ""
        };
        write!(f, "`{}{more}`", Excerpt(start))
    }
}

// What is said of the word at a place; where there is none, the list ends there.
#[derive(Drop)]
pub struct Remark<'a> {
    pub at: Location<'a>,
    pub said: &'a str,
}

impl<'a> fmt::Display for Remark<'a> {
    fn fmt<W: fmt::Write>(&self, f: &mut fmt::Formatter<W>) -> fmt::Result {
        match self.at.word() {
            Some(word) => write!(f, "{} {}", Quoted(word.part), self.said),
            None => write!(f, "the list ends here and is not finished"),
        }
    }
}

// A fault, for the list that it stands in.
#[derive(Drop)]
pub struct Words<'a, F> {
    pub text: &'a [u8],
    pub fault: F,
}

impl<'a> fmt::Display for Words<'a, ReadFault> {
    fn fmt<W: fmt::Write>(&self, f: &mut fmt::Formatter<W>) -> fmt::Result {
        let text = self.text;
        match self.fault {
            ReadFault::Scan(ScanFault::TooLong) => write!(f, "the list is longer than 16384 bytes"),
            ReadFault::Scan(ScanFault::Byte(place)) => {
                let byte = Location { text, place }.byte().unwrap_or(0);
                write!(f, "the byte {byte} may stand in comments only")
            }
            ReadFault::Scan(ScanFault::Unclosed(_)) => write!(f, "this comment is not closed"),
            ReadFault::Unlisted(place) => {
                let at = Location { text, place };
                let said = "is no token of the language";
                write!(f, "{}", Remark { at, said })
            }
            ReadFault::OutOfRange(place) => {
                let at = Location { text, place };
                let said = "has a number out of range";
                write!(f, "{}", Remark { at, said })
            }
            ReadFault::TooMany(_) => write!(f, "the list has more than 2048 tokens"),
        }
    }
}

// Which limit is passed, by the token at the place: one of three texts, for which a type to display would be no plainer.
fn limit_words(at: Location<'_>) -> &'static str {
    match at.byte() {
        Some(b'[') => "more than 8 brackets are open",
        Some(b':') => "the list has more than 64 modules",
        _ => "more than 16 conditions are open",
    }
}

impl<'a> fmt::Display for Words<'a, GrammarFault> {
    fn fmt<W: fmt::Write>(&self, f: &mut fmt::Formatter<W>) -> fmt::Result {
        let text = self.text;
        match self.fault {
            GrammarFault::Reading(fault) => write!(f, "{}", Words { text, fault }),
            GrammarFault::Unexpected(place) => {
                let at = Location { text, place };
                let said = "cannot stand here";
                write!(f, "{}", Remark { at, said })
            }
            GrammarFault::TooDeep(place) => f.write_str(limit_words(Location { text, place })),
        }
    }
}
