// Fields of a tape, in every place of a line.
use crate::verdict::refuses;
use panel::Panel;
use std::test::Fail;
use tape::Tape;

// A field and the number that it is.
const NUMBERS: [(&[u8; 6], u16); 20] = [
    (b"     0", 0),
    (b"     1", 1),
    (b"     9", 9),
    (b"    10", 10),
    (b"    42", 42),
    (b"    99", 99),
    (b"   100", 100),
    (b"   105", 105),
    (b"   999", 999),
    (b"  1000", 1000),
    (b"  1001", 1001),
    (b"  9999", 9999),
    (b" 10000", 10000),
    (b" 12345", 12345),
    (b" 32768", 32768),
    (b" 60000", 60000),
    (b" 65499", 65499),
    (b" 65530", 65530),
    (b" 65534", 65534),
    (b" 65535", 65535),
];

// No fields.
const BAD: [&[u8; 6]; 62] = [
    b"      ",
    b"    00",
    b"    01",
    b"   007",
    b"   000",
    b"  0000",
    b"  0999",
    b" 00000",
    b" 00001",
    b" 09999",
    b"000000",
    b"000001",
    b"065535",
    b" 65536",
    b" 65540",
    b" 65600",
    b" 66000",
    b" 70000",
    b" 99999",
    b"100000",
    b"165535",
    b"655350",
    b"999999",
    b"-     ",
    b" -    ",
    b"  -   ",
    b"   -  ",
    b"    - ",
    b"    --",
    b"    -1",
    b"    1-",
    b"   - 1",
    b"------",
    b"0     ",
    b"1     ",
    b"    1 ",
    b"   1  ",
    b"   1 2",
    b" 1 2 3",
    b"    +1",
    b"    1+",
    b"    .5",
    b"   1.5",
    b"   1,5",
    b"65,535",
    b"\t    1",
    b"     \t",
    b"     \n",
    b"     \r",
    b"    1\n",
    b"    1\r",
    b"     a",
    b"     F",
    b"   0xF",
    b"     /",
    b"     :",
    b"     *",
    b"     \x00",
    b"     \x7f",
    b"     \x80",
    b"     \xff",
    b"\xa0    1",
];

// A line of zeros with one field in its place.
fn line_with(field: &[u8; 6], word: usize) -> [u8; 49] {
    let mut line = *b"     0     0     0     0     0     0     0     0\n";
    if word < 8 {
        line[6 * word..6 * word + 6].copy_from_slice(field);
    }
    line
}

// What is read at the first line.
fn first_read(line: &[u8], word: u8) -> Result<Option<u16>, Fail> {
    let mut tape = Tape::new(line)?;
    tape.move_on();
    Ok(tape.read(word).ok())
}

#[test]
fn numbers(rt: HostRuntime) -> Result<(), Fail> {
    for (row, (field, number)) in NUMBERS.iter().enumerate() {
        for word in 0..8u8 {
            let line = line_with(field, word as usize);
            assert_eq!(rt; first_read(&line, word)?, Some(*number), "{}", row);
        }
    }
    Ok(())
}

#[test]
fn dashes(rt: HostRuntime) -> Result<(), Fail> {
    for word in 0..8u8 {
        let line = line_with(b"     -", word as usize);
        assert_eq!(rt; first_read(&line, word)?, None);
        assert_eq!(rt; first_read(&line, (word + 1) % 8)?, Some(0));
    }
    Ok(())
}

#[test]
fn bad_fields(rt: HostRuntime) -> Result<(), Fail> {
    for field in &BAD {
        for word in 0..8usize {
            let line = line_with(field, word);
            refuses(&rt, &line, 1)?;
        }
    }
    Ok(())
}

// Every byte in the last column of a field, and in the place of the line feed.
#[test]
fn bytes(rt: HostRuntime) {
    for b in 0..=255u8 {
        let line = line_with(&[b' ', b' ', b' ', b' ', b' ', b], 3);
        let good = b == b'-' || b.is_ascii_digit();
        assert!(rt; Tape::new(&line).is_ok() == good);
        let mut ended = line_with(b"     7", 0);
        ended[48] = b;
        assert!(rt; Tape::new(&ended).is_ok() == (b == b'\n'));
    }
}
