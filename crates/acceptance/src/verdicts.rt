// Texts that are read, with their count of tokens, and texts that are refused, with cause and place.
use crate::verdict::{accepts, refuses};
use faults::Fault;
use reading::{Placed, ReadFault, read};
use std::test::Fail;

// A text, its cause, line and column.
const REFUSED: [(&[u8], u8, u32, u32); 90] = [
    (b"\x00", 2, 1, 1),
    (b"L5\x08", 2, 1, 3),
    (b"\x0b", 2, 1, 1),
    (b"\x0c", 2, 1, 1),
    (b"J1\n \x1f", 2, 2, 2),
    (b"\x7f", 2, 1, 1),
    (b"J1 \x80", 2, 1, 4),
    (b"\xff", 2, 1, 1),
    (b"; \xff\x00\n\x01", 2, 2, 1),
    (b"/* \xc3\xa9 */\xc3", 2, 1, 9),
    (b"5O\n\x7f", 2, 2, 1),
    (b"/*", 3, 1, 1),
    (b"/*/", 3, 1, 1),
    (b"J1/*", 3, 1, 3),
    (b"\n /* a\n * /\n", 3, 2, 2),
    (b"/*/*/ /*", 3, 1, 7),
    (b";x\n/*;*", 3, 2, 1),
    (b"5O /* a", 3, 1, 4),
    (b"\x01/*", 2, 1, 1),
    (b"/*\x01", 3, 1, 1),
    (b"5O", 4, 1, 1),
    (b"000005", 4, 1, 1),
    (b".12345", 4, 1, 1),
    (b".", 4, 1, 1),
    (b".5G", 4, 1, 1),
    (b".ff", 4, 1, 1),
    (b"F126", 4, 1, 1),
    (b"T00", 4, 1, 1),
    (b"NT00", 4, 1, 1),
    (b"I00", 4, 1, 1),
    (b"UF126", 4, 1, 1),
    (b"UY000", 4, 1, 1),
    (b"<5", 4, 1, 1),
    (b"=>", 4, 1, 1),
    (b"+LI00", 4, 1, 1),
    (b"L", 4, 1, 1),
    (b"N", 4, 1, 1),
    (b"S", 4, 1, 1),
    (b"SI000", 4, 1, 1),
    (b"NSV00", 4, 1, 1),
    (b"NL5", 4, 1, 1),
    (b"NU000", 4, 1, 1),
    (b"ST0", 4, 1, 1),
    (b"J", 4, 1, 1),
    (b"J00", 4, 1, 1),
    (b":01", 4, 1, 1),
    (b":0001", 4, 1, 1),
    (b"G03", 4, 1, 1),
    (b"l5", 4, 1, 1),
    (b"j1", 4, 1, 1),
    (b"C003", 4, 1, 1),
    (b"/", 4, 1, 1),
    (b"*/", 4, 1, 1),
    (b"J1 ] [5]x", 4, 1, 9),
    (b"-5", 4, 1, 1),
    (b"L5 \n\t  ##", 4, 2, 4),
    (b"65536", 5, 1, 1),
    (b"99999", 5, 1, 1),
    (b"L65536", 5, 1, 1),
    (b"J2", 5, 1, 1),
    (b":002", 5, 1, 1),
    (b":200", 5, 1, 1),
    (b"G000", 5, 1, 1),
    (b"G002", 5, 1, 1),
    (b"G200", 5, 1, 1),
    (b"LI01", 5, 1, 1),
    (b"LI40", 5, 1, 1),
    (b"LY04", 5, 1, 1),
    (b"I400", 5, 1, 1),
    (b"NV048", 5, 1, 1),
    (b"LF127", 5, 1, 1),
    (b"LF0018", 5, 1, 1),
    (b"F1280", 5, 1, 1),
    (b"LT20", 5, 1, 1),
    (b"NST20", 5, 1, 1),
    (b"U400", 5, 1, 1),
    (b"DF1288", 5, 1, 1),
    (b"SY338", 5, 1, 1),
    (b"J1 65536 5O", 5, 1, 4),
    (b"J1 5O 65536", 4, 1, 4),
    (b"65536 \x01", 2, 1, 7),
    (b"5O\n/*", 3, 2, 1),
    (b"\r\n5O", 4, 2, 1),
    (b"\r5O", 4, 1, 2),
    (b"\t5O", 4, 1, 2),
    (b"/* \n\n */5O", 4, 3, 4),
    (b";\xc3\xa9\n5O", 4, 2, 1),
    (b"[5O]", 4, 1, 2),
    (b"J1;5O\n5O", 4, 2, 1),
    (b"L5/**/O 5O", 4, 1, 9),
];

// A text and how many tokens it has.
const READ: [(&[u8], usize); 33] = [
    (b"", 0),
    (b" \t\r\n", 0),
    (b"; only a remark", 0),
    (b";", 0),
    (b"/**/", 0),
    (b"/***/", 0),
    (b"/*/*/", 0),
    (b"/* ; */", 0),
    (b"; /* \n", 0),
    (b"J1;x", 1),
    (b"J1;x\nJ0", 2),
    (b"L5/**/O", 2),
    (b"[[]]", 4),
    (b"[L5]", 3),
    (b"A]", 2),
    (b"65535", 1),
    (b"00005", 1),
    (b"0", 1),
    (b".0", 1),
    (b".FFFF", 1),
    (b"L.0004", 1),
    (b"L00000", 1),
    (b"LI00 LI32 NLY00 LV32 LF000 LF126 LT00 LT19", 8),
    (b"LI000 NLI337 LY000 NLV337 LF0000 NLF1277", 6),
    (b"SY00 NSY32 SF126 ST19 NST00 SY337 SF1277 NSF0000", 8),
    (b"U000 D337 UF0000 DF1277", 4),
    (b"I000 NI337 Y000 V000 F0000 NF1277", 6),
    (b"A O X + -", 5),
    (b"< > = <= >=", 5),
    (b"[ ] E Z J0 J1 R", 7),
    (b":000 :001 :003 :199 G003 G199", 6),
    (b"; \x00\x01\xff\n/* \x00\xff */J1", 1),
    (
        b":001 I000 U001 E D001 Z J1 :000 LI00 + LF010 SF010 SY02 J0",
        14,
    ),
];

// How many tokens a text has.
fn tokens_of(text: &[u8]) -> Result<usize, ReadFault> {
    let mut memory = [Placed::blank(); 2048];
    read(text, &mut memory)
}

#[test]
fn texts_that_are_refused(rt: HostRuntime) -> Result<(), Fail> {
    for (row, (text, cause, line, column)) in REFUSED.iter().enumerate() {
        refuses(&rt, row, tokens_of(text), *cause, *line, *column)?;
    }
    Ok(())
}

#[test]
fn texts_that_are_read(rt: HostRuntime) -> Result<(), Fail> {
    for (row, (text, tokens)) in READ.iter().enumerate() {
        accepts(&rt, row, tokens_of(text), *tokens)?;
    }
    Ok(())
}

// 16,384 bytes are read and one more is not; 2,048 tokens are, and the next stands at its place.
#[test]
fn limits(rt: HostRuntime) -> Result<(), Fail> {
    accepts(&rt, 1, tokens_of(&[b' '; 16384]), 0)?;
    refuses(&rt, 2, tokens_of(&[b' '; 16385]), 1, 0, 0)?;
    refuses(&rt, 3, tokens_of(&[0u8; 16384]), 2, 1, 1)?;
    refuses(&rt, 4, tokens_of(&[0u8; 16385]), 1, 0, 0)?;
    accepts(&rt, 5, tokens_of(&[b'['; 2048]), 2048)?;
    refuses(&rt, 6, tokens_of(&[b'['; 2049]), 6, 1, 2049)?;
    let mut late = [b'['; 2060];
    late[2059] = b'5';
    refuses(&rt, 7, tokens_of(&late), 6, 1, 2049)?;
    late[2058] = b'O';
    refuses(&rt, 8, tokens_of(&late), 4, 1, 2059)?;
    late[2057] = 0;
    refuses(&rt, 9, tokens_of(&late), 2, 1, 2058)
}

// Every byte by itself: outside a comment, and inside one of each kind.
#[test]
fn bytes(rt: HostRuntime) -> Result<(), Fail> {
    for b in 0..=255u8 {
        let outside = [b' ', b, b' '];
        let bad = tokens_of(&outside).is_err_and(|fault| fault.cause() == 2);
        let allowed = matches!(b, 9 | 10 | 13 | 32..=126);
        assert!(rt; bad != allowed, "byte {b}");
        accepts(&rt, b as usize, tokens_of(&[b';', b, b'\n', b'R']), 1)?;
        accepts(
            &rt,
            b as usize,
            tokens_of(&[b'/', b'*', b, b'*', b'/', b'R']),
            1,
        )?;
    }
    Ok(())
}
