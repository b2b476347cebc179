// Fields and lines of a tape.
ghost use Rattle.std.specs.Prelude.{◌≡◌, length, option_map};
ghost use Rattle.std.specs.Result.{result_ok};
ghost use Rattle.tape.specs.Fields.{text_of, value_of, numeral_of, field_of, line_holds};
ghost use Rattle.tape.specs.Writing.{entry_from};

// Six columns that are no field.
#[derive(Clone, Copy)]
pub(crate) struct BadField;

fn without_blanks(mut columns: &[u8]) -> &[u8]
    ensures { result.now ≡ text_of columns.now }
{
    while let [b' ', rest @ ..] = columns {
        columns = rest;
    }
    columns
}

// The number that decimal digits write, if it is at most 65,535. By the bytes and not by `parse`, which takes two to three
// times as long.
fn digits_value(digits: &[u8]) -> Option<u16>
    ensures { result ≡ value_of digits.now }
{
    let mut value: u16 = 0;
    for byte in digits {
        let digit = match byte {
            b'0'..=b'9' => u16::from(byte - b'0'),
            _ => return None,
        };
        value = value.checked_mul(10)?.checked_add(digit)?;
    }
    Some(value)
}

// A number with no sign and no leading zeros.
#[tactic(auto, using(crate::proofs::Columns::no_text, crate::proofs::Columns::leading_zero, crate::proofs::Columns::by_value))]
fn read_number(text: &[u8]) -> Option<u16>
    ensures { result ≡ numeral_of text.now }
{
    match text {
        [] | [b'0', _, ..] => None,
        _ => digits_value(text),
    }
}

// What a field says: a number, or `None` for a dash.
pub(crate) fn read_field(columns: &[u8]) -> Result<Option<u16>, BadField>
    ensures { option_map entry_from (result_ok result) ≡ field_of columns.now }
{
    match without_blanks(columns) {
        [b'-'] => Ok(None),
        text => read_number(text).map(Some).ok_or(BadField),
    }
}

// Whether 49 bytes are eight fields and a line feed.
pub(crate) fn is_line(line: &[u8]) -> bool
    requires { length line.now ≡ 49 }
    ensures { result ≡ line_holds line.now }
{
    line.chunks_exact(6).all(|field| read_field(field).is_ok()) && line[48] == b'\n'
}
