// Parts of a list as a terminal shows them.
use std::fmt;
use std::fmt::Write;

// How much of a long line is shown, and how much of that before the column.
const WIDTH: usize = 100;

const BEFORE: usize = 60;

// Writes a text, each character as `shown` has it.
fn write_text<W: fmt::Write, F: Fn(char) -> char>(
    f: &mut fmt::Formatter<W>,
    text: &str,
    shown: &F,
) -> fmt::Result
    requires { F.IsAlwaysCallable shown.now }
{
    for c in text.chars() {
        f.write_char(shown(c))?;
    }
    Ok(())
}

// Writes bytes as text, each character as `shown` has it; what is no text is U+FFFD.
fn write_chars<W: fmt::Write, F: Fn(char) -> char>(
    f: &mut fmt::Formatter<W>,
    bytes: &[u8],
    shown: F,
) -> fmt::Result
    requires { F.IsAlwaysCallable shown }
{
    for chunk in bytes.utf8_chunks() {
        write_text(f, chunk.valid(), &shown)?;
        if !chunk.invalid().is_empty() {
            f.write_char(shown(char::REPLACEMENT_CHARACTER))?;
        }
    }
    Ok(())
}

// Bytes as text: what is no text, and control characters other than tabs, become `?`.
#[derive(Drop)]
pub struct Excerpt<'a>(pub &'a [u8]);

impl<'a> fmt::Display for Excerpt<'a> {
    fn fmt<W: fmt::Write>(&self, f: &mut fmt::Formatter<W>) -> fmt::Result {
        write_chars(f, self.0, |c| match c {
            '\t' => '\t',
            '\u{0}'..='\u{1f}' | '\u{7f}'..='\u{9f}' | '\u{fffd}' => '?',
            _ => c,
        })
    }
}

// As wide as the bytes are shown: blanks, with the tabs kept.
#[derive(Drop)]
struct Blanks<'a>(&'a [u8]);

impl<'a> fmt::Display for Blanks<'a> {
    fn fmt<W: fmt::Write>(&self, f: &mut fmt::Formatter<W>) -> fmt::Result {
        write_chars(f, self.0, |c| if c == '\t' { '\t' } else { ' ' })
    }
}

// A line and, under the byte at `column`, a mark. Of a long line the part around the mark is shown, and a carriage return at
// its end is not.
#[derive(Drop)]
pub struct Marked<'a> {
    pub line: &'a [u8],
    pub column: usize,
}

impl<'a> fmt::Display for Marked<'a> {
    fn fmt<W: fmt::Write>(&self, f: &mut fmt::Formatter<W>) -> fmt::Result {
        let line = self.line.strip_suffix(b"\r").unwrap_or(self.line);
        let column = self.column.min(line.len());
        let from = column.saturating_sub(BEFORE);
        let rest = &line[from..];
        let shown = &rest[..rest.len().min(WIDTH)];
        let (front, indent) = if from > 0 { ("...", "   ") } else { ("", "") };
        let back = if shown.len() < rest.len() { "..." } else { "" };
        writeln!(f, "{front}{}{back}", Excerpt(shown))?;
        write!(f, "{indent}{}^", Blanks(&line[from..column]))
    }
}
