// What tokens decode to, and what the memory holds.
use faults::Place;
use reading::{Placed, read};
use std::test::Fail;
use tokens::{Area, BitCell, Comparison, Token, WordCell};

// The first token of a text.
fn first(text: &[u8]) -> Result<Token<'_>, Fail> {
    let mut memory = [Placed::blank(); 2048];
    read(text, &mut memory)?;
    let [placed, ..] = memory;
    Ok(placed.token)
}

fn bit(area: Area, byte: u8, bit: u8) -> BitCell {
    BitCell { area, byte, bit }
}

#[test]
fn bits(rt: HostRuntime) -> Result<(), Fail> {
    assert_eq!(rt;
        first(b"NLI337")?,
        Token::LoadBit(b"NLI337", bit(Area::Input, 15, 7), true)
    );
    assert_eq!(rt;
        first(b"UF1277")?,
        Token::Switch(b"UF1277", bit(Area::Internal, 127, 7), true)
    );
    assert_eq!(rt;
        first(b"D013")?,
        Token::Switch(b"D013", bit(Area::Output, 1, 3), false)
    );
    assert_eq!(rt;
        first(b"V120")?,
        Token::Test(b"V120", bit(Area::Change, 6, 0), false)
    );
    Ok(())
}

#[test]
fn words(rt: HostRuntime) -> Result<(), Fail> {
    assert_eq!(rt;
        first(b"NSY32")?,
        Token::StoreWord(b"NSY32", WordCell::Pair(Area::Output, 14), true)
    );
    assert_eq!(rt;
        first(b"LT19")?,
        Token::LoadWord(b"LT19", WordCell::Timer(19), false)
    );
    assert_eq!(rt; first(b"L.FFFF")?, Token::LoadNumber(b"L.FFFF", 65535));
    assert_eq!(rt;
        first(b">=")?,
        Token::Comparison(b">=", Comparison::AtLeast)
    );
    assert_eq!(rt; first(b"G199")?, Token::Call(b"G199", 199));
    Ok(())
}

// A refused text leaves the memory as it was.
#[test]
fn memory_of_a_refused_text(rt: HostRuntime) -> Result<(), Fail> {
    let mut memory = [Placed::blank(); 2048];
    assert!(rt; read(b"R", &mut memory).is_ok());
    assert!(rt; read(b"J0 J1 5O", &mut memory).is_err());
    let [placed, ..] = memory;
    assert_eq!(rt; placed.place, Place { line: 1, column: 1 });
    assert_eq!(rt; placed.token, Token::Return(b"R"));
    Ok(())
}
