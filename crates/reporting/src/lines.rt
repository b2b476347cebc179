// The lines of a text.
ghost use Rattle.std.specs.Prelude.{◌≡◌, ◌-◌, min, length};
ghost use Rattle.reporting.specs.Lines.{line_of};

// A line, without its line feed. Lines count from 1.
pub fn line_of(text: &[u8], line: u32) -> &[u8]
    ensures { result.now ≡ line_of line text.now }
{
    let before = line.saturating_sub(1) as usize;
    text.split(|b| *b == b'\n').nth(before).unwrap_or(&[])
}

// A column as an index into its line, or behind the line's end.
pub fn column_in(line: &[u8], column: u32) -> usize
    ensures { result ≡ min (column - 1) (length line.now) }
{
    let index = column.saturating_sub(1) as usize;
    index.min(line.len())
}
