// Reads a whole list: its tokens, each at its place, or the one fault that the rules give.
#![tactic(auto)]

ghost use Rattle.std.specs.Prelude.{◌≡◌, ◌<◌, ◌≤◌, length};
ghost use Rattle.scanning.specs.Scan.{scan_of};
ghost use Rattle.reading.specs.Faults.{cause_of, layer_of, place_of, causes_of_reading};
ghost use Rattle.reading.specs.Items.{item, fault_at, shown, spot, token_at, blank_item, read_of, written, Left};
ghost use Rattle.reading.specs.Tally.{fresh, noted, outcome, tallied, Filled};
ghost use Rattle.reading.specs.Layout.{AllInPlace};
ghost use Rattle.reading.specs.Verdict.{Verdict, OneVerdict};
ghost use Rattle.reading.specs.declared.ReadFault.TheVariants.{Scan};

use faults::{Fault, Layer, Place};
use scanning::{ScanFault, Scanner, Word};
use tokens::{Token, WordFault, classify};

// A token at its place.
#[derive(Clone, Copy, Debug)]
pub struct Placed<'a> {
    pub token: Token<'a>,
    pub place: Place,
}

// Why a list cannot be read: causes 1 to 6.
#[derive(Clone, Copy, Debug, PartialEq, Eq)]
pub enum ReadFault {
    Scan(ScanFault),
    Unlisted(Place),
    OutOfRange(Place),
    TooMany(Place),
}

impl From<ScanFault> for ReadFault {
    ghost from_gives = { λ e r. r ≡ Scan e };

    fn from(e: ScanFault) -> ReadFault {
        ReadFault::Scan(e)
    }
}

impl Fault for ReadFault {
    type Place = Place;

    ghost cause_of = { cause_of };

    ghost layer_of = { layer_of };

    ghost place_of = { place_of };

    ghost laws = { causes_of_reading };

    fn cause(self) -> u8 {
        match self {
            ReadFault::Scan(ScanFault::TooLong) => 1,
            ReadFault::Scan(ScanFault::Byte(_)) => 2,
            ReadFault::Scan(ScanFault::Unclosed(_)) => 3,
            ReadFault::Unlisted(_) => 4,
            ReadFault::OutOfRange(_) => 5,
            ReadFault::TooMany(_) => 6,
        }
    }

    fn layer(self) -> Layer {
        Layer::Reading
    }

    fn place(self) -> Place {
        match self {
            // A place and no Option: the rules give 0, 0 to a text that is too long.
            ReadFault::Scan(ScanFault::TooLong) => Place { line: 0, column: 0 },
            ReadFault::Scan(ScanFault::Byte(place)) => place,
            ReadFault::Scan(ScanFault::Unclosed(place)) => place,
            ReadFault::Unlisted(place) => place,
            ReadFault::OutOfRange(place) => place,
            ReadFault::TooMany(place) => place,
        }
    }
}

impl<'a> Placed<'a> {
    // An empty slot, for memory that is handed to `read`.
    pub fn blank() -> Placed<'a>
        ensures { item result ≡ blank_item }
    {
        Placed {
            token: Token::Open(b""),
            place: Place { line: 0, column: 0 },
        }
    }
}

// The fault of a word at `place` that is no token.
fn fault_at(place: Place, fault: WordFault) -> ReadFault
    ensures { result ≡ fault_at place fault }
{
    match fault {
        WordFault::Unlisted => ReadFault::Unlisted(place),
        WordFault::OutOfRange => ReadFault::OutOfRange(place),
    }
}

// The token that a word is, at its place.
fn token_of<'a>(word: Word<'a>) -> Result<Placed<'a>, ReadFault>
    ensures { shown result ≡ token_at (spot word.entry) }
{
    let Word { part, place } = word;
    let token = classify(part).map_err(|fault| fault_at(place, fault))?;
    Ok(Placed { token, place })
}

// What is known of the words so far: how many there are, the first that is no token, and the first with no room.
#[derive(Clone, Copy, Default)]
struct Tally {
    count: usize,
    refused: Option<ReadFault>,
    extra: Option<Place>,
}

impl Tally {
    // One word more.
    fn note(&mut self, word: Word)
        requires { self.old.count < 16384 }
        ensures { self.new ≡ noted self.old (spot word.entry) }
    {
        self.refused = self.refused.or(token_of(word).err());
        if self.count == 2048 {
            self.extra = Some(word.place);
        }
        self.count += 1;
    }

    // What the tally says at the end of a text.
    fn conclude(self) -> Result<usize, ReadFault>
        ensures { result ≡ outcome self }
    {
        match (self.refused, self.extra) {
            (Some(fault), _) => Err(fault),
            (None, Some(place)) => Err(ReadFault::TooMany(place)),
            (None, None) => Ok(self.count),
        }
    }
}

// How many tokens a text has, or its fault.
fn judge(text: &[u8]) -> Result<usize, ReadFault>
    ensures { result ≡ tallied fresh (scan_of text.now) }
{
    let mut scanner = Scanner::new(text);
    let mut tally = Tally::default();
    while let Some(word) = scanner.next_word()? {
        tally.note(word);
    }
    tally.conclude()
}

// Writes the tokens of a text, in their order, to the front of `memory`, as far as there is room.
fn fill<'a>(text: &'a [u8], memory: &mut [Placed<'a>]) -> Result<(), ReadFault>
    ensures { Filled text.now memory.new memory.old result }
{
    let mut scanner = Scanner::new(text);
    for slot in memory.iter_mut() {
        let Some(word) = scanner.next_word()? else {
            return Ok(());
        };
        *slot = token_of(word)?;
    }
    Ok(())
}

// Reads a whole text into memory that is handed over, since this crate has no heap: the tokens stand at its front, in their
// order, and what lies behind them is as it was. The text is judged before anything is written, so a refusal leaves the
// memory as it was.
pub fn read<'a>(text: &'a [u8], memory: &mut [Placed<'a>; 2048]) -> Result<usize, ReadFault>
    ensures is { written memory.new result ≡ read_of text.now }
    ensures left { Left memory.new memory.old result }
    ensures size { length memory.new ≡ 2048 }
    ensures verdict { Verdict text.now (written memory.new result) }
    ensures one { OneVerdict text.now }
    ensures placed { AllInPlace text.now (written memory.new result) }
{
    let count = judge(text)?;
    fill(text, memory)?;
    Ok(count)
}
