// A scanner: a text, and how far it is read.
ghost use Rattle.std.specs.Prelude.{◌≡◌, ◌≤◌, length, drop, IfOk};
ghost use Rattle.scanning.specs.Text.{longest};
ghost use Rattle.scanning.specs.Scan.{Within, origin, skip_of, skipped, next_of, next_in, told, told_by, Goes, Moves, Stays};
ghost use Rattle.scanning.specs.declared.Mode.TheVariants.{Between};

use crate::{Cursor, Mode, ScanFault, Word, ended, mode_after, place_past, word_len};
use faults::Place;

#[derive(Drop)]
pub struct Scanner<'a> {
    text: &'a [u8],
    here: Cursor,
    ghost ok: { Within text.now here },
}

impl<'a> Scanner<'a> {
    // At the first byte of a text.
    pub fn new(text: &'a [u8]) -> Scanner<'a>
        ensures same { result.text.now ≡ text.now }
        ensures begins { result.here ≡ origin }
    {
        let here = Cursor {
            at: 0,
            place: Place { line: 1, column: 1 },
        };
        Scanner { text, here }
    }

    // The next word; at the end of the text and at a fault nothing is passed. A text over 16,384 bytes is refused.
    pub fn next_word(&mut self) -> Result<Option<Word<'a>>, ScanFault>
        ensures is { told_by result self.new.here self.new.text.now ≡ next_in self.old.text.now self.old.here }
        ensures same { self.new.text ≡ self.old.text }
        ensures goes { Moves result self.old.here self.new.here }
        ensures stays { Stays result self.old.here self.new.here }
    {
        if self.text.len() > 16384 {
            return Err(ScanFault::TooLong);
        }
        let Some((word, after)) = self.word_ahead()? else {
            return Ok(None);
        };
        self.here = after;
        Ok(Some(word))
    }

    // The cursor past white space and comments. By an index: over `iter` and `enumerate` a comment takes half as long again.
    fn skip(&self) -> Result<Cursor, ScanFault>
        requires short_enough { length self.now.text.now ≤ longest }
        ensures is { skipped self.now.text.now result ≡ skip_of Between self.now.here.place (drop self.now.here.at self.now.text.now) }
        ensures within { IfOk result (λ c. (self.now.here.at ≤ c.at) × Within self.now.text.now c) }
    {
        let Cursor { mut at, mut place } = self.here;
        let mut mode = Mode::Between;
        while at < self.text.len() {
            let b = self.text[at];
            let ahead = self.text.get(at + 1).copied();
            let Some(next) = mode_after(mode, place, b, ahead) else {
                return Ok(Cursor { at, place });
            };
            mode = next;
            place = place_past(place, b);
            at += 1;
        }
        ended(mode, Cursor { at, place })
    }

    // The next word, and the cursor behind it.
    fn word_ahead(&self) -> Result<Option<(Word<'a>, Cursor)>, ScanFault>
        requires short_enough { length self.now.text.now ≤ longest }
        ensures is { told self.now.text.now result ≡ next_of self.now.here.place (drop self.now.here.at self.now.text.now) }
        ensures goes { Goes self.now.text.now self.now.here.at result }
    {
        let Cursor { at, place } = self.skip()?;
        let rest = &self.text[at..];
        if rest.is_empty() {
            return Ok(None);
        }
        let n = word_len(rest).ok_or(ScanFault::Byte(place))?;
        let word = Word {
            part: &rest[..n],
            place,
        };
        let after = Cursor {
            at: at + n,
            place: Place {
                column: place.column + n as u32,
                ..place
            },
        };
        Ok(Some((word, after)))
    }
}
