// Writes the lines of a tape.
ghost use Rattle.std.specs.Prelude.{◌≡◌, ◌+◌, ◌%◌, map};
ghost use Rattle.tape.specs.Format.{number, field_bytes, line_bytes};
ghost use Rattle.tape.specs.Writing.{entry_from};

// The last digit of a number.
fn last_digit(n: u16) -> u8
    ensures { result ≡ 48 + n % 10 }
{
    b'0' + (n % 10) as u8
}

// The field of a number, right-justified. Digit by digit and not printed: what prints a number writes from the left.
fn number_field(n: u16) -> [u8; 6]
    ensures { result ≡ field_bytes (number n) }
{
    let (d, c, b, a) = (
        last_digit(n),
        last_digit(n / 10),
        last_digit(n / 100),
        last_digit(n / 1000),
    );
    match n {
        0..=9 => [b' ', b' ', b' ', b' ', b' ', d],
        10..=99 => [b' ', b' ', b' ', b' ', c, d],
        100..=999 => [b' ', b' ', b' ', b, c, d],
        1000..=9999 => [b' ', b' ', a, b, c, d],
        _ => [b' ', last_digit(n / 10000), a, b, c, d],
    }
}

// The field of a number, or of a silent input.
fn write_field(entry: Option<u16>) -> [u8; 6]
    ensures { result ≡ field_bytes (entry_from entry) }
{
    entry.map_or(*b"     -", number_field)
}

// A line of eight numbers; `None` is a silent input.
pub fn write_line(entries: &[Option<u16>; 8]) -> [u8; 49]
    ensures { result ≡ line_bytes (map entry_from entries.now) }
{
    let mut line = [b'\n'; 49];

    // By index and not by `chunks_exact_mut`: a proof knows nothing of what its pieces hold at the end.
    for (k, entry) in entries.iter().enumerate() {
        line[6 * k..6 * k + 6].copy_from_slice(&write_field(*entry));
    }
    line
}
