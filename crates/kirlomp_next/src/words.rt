// What is wrong with a list that is compiled, in plain words.
use linking::LinkFault;
use reporting::location::Location;
use reporting::words::{Quoted, Remark, Words, find_word};
use std::fmt;

// Which entry a list lacks: one of three texts, as for the limits.
fn missing_words(text: &[u8]) -> &'static str {
    let has = |part: &[u8]| find_word(text, |word| word.part == part).is_some();
    if has(b":001") {
        "the list ends and has no module :000"
    } else if has(b":000") {
        "the list ends and has no module :001"
    } else {
        "the list ends and has neither :000 nor :001"
    }
}

// A call that goes nowhere, or a list that lacks one of its two entries.
#[derive(Drop)]
struct Unlinked<'a>(Location<'a>);

impl<'a> fmt::Display for Unlinked<'a> {
    fn fmt<W: fmt::Write>(&self, f: &mut fmt::Formatter<W>) -> fmt::Result {
        match self.0.word() {
            Some(word) => write!(
                f,
                "{} calls a module that does not stand further down",
                Quoted(word.part)
            ),
            None => f.write_str(missing_words(self.0.text)),
        }
    }
}

// A fault of linking, for the list that it stands in. A type of its own: `Words` and `LinkFault` are of other crates, so no
// `Display` can be given to the two here.
#[derive(Drop)]
pub(crate) struct LinkWords<'a> {
    pub(crate) text: &'a [u8],
    pub(crate) fault: LinkFault,
}

impl<'a> fmt::Display for LinkWords<'a> {
    fn fmt<W: fmt::Write>(&self, f: &mut fmt::Formatter<W>) -> fmt::Result {
        let text = self.text;
        let (place, said) = match self.fault {
            LinkFault::Grammar(fault) => return write!(f, "{}", Words { text, fault }),
            LinkFault::Unlinked(place) => {
                return write!(f, "{}", Unlinked(Location { text, place }));
            }
            LinkFault::Repeated(place) => (place, "stands further up too"),
            LinkFault::Misplaced(place) => (
                place,
                "may not be reached from :000, since V and stores to timers are for :001 alone",
            ),
            LinkFault::Clashing(place) => {
                (place, "stores into a byte that the other level stores into")
            }
            LinkFault::Overweight(place) => (
                place,
                "has a chain of more than 8 modules below it, or takes more than 60000 steps",
            ),
        };
        let at = Location { text, place };
        write!(f, "{}", Remark { at, said })
    }
}
