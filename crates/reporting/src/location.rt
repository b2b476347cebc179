// Where in a list a message points.
ghost use Rattle.std.specs.Prelude.{◌≡◌, IfSome};
ghost use Rattle.scanning.specs.Scan.{origin};
ghost use Rattle.reporting.specs.Search.{FirstFrom, BeginsAt};

use crate::excerpt::Marked;
use crate::lines::{column_in, line_of};
use crate::words::find_word;
use faults::Place;
use scanning::Word;

// A place of a list, with the list's text.
#[derive(Clone, Copy)]
pub struct Location<'a> {
    pub text: &'a [u8],
    pub place: Place,
}

impl<'a> Location<'a> {
    // The word at the place; none at the end of the text.
    pub fn word(self) -> Option<Word<'a>>
        ensures there { IfSome result (λ w. w.place ≡ self.entry.place) }
        ensures first { FirstFrom (BeginsAt self.entry.place) self.entry.text.now origin result }
    {
        find_word(self.text, |word| word.place == self.place)
    }

    // The line of the place, with a mark under the column.
    pub(crate) fn marked(self) -> Marked<'a> {
        let line = line_of(self.text, self.place.line);
        let column = column_in(line, self.place.column);
        Marked { line, column }
    }

    // The byte at the place.
    pub(crate) fn byte(self) -> Option<u8> {
        let Marked { line, column } = self.marked();
        line.get(column).copied()
    }
}
