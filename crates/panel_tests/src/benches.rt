// Benches: what is set, read and put, and what is refused.
use crate::verdict::refused;
use panel::{Bench, Panel};
use std::process::Abort;
use std::test::Fail;

fn reads(rt: &impl Abort, bench: &mut Bench, word: u8, value: u16) -> Result<(), Fail> {
    assert_eq!(rt; bench.read(word)?, value);
    Ok(())
}

#[test]
fn begins_at_zero_and_answers(rt: HostRuntime) -> Result<(), Fail> {
    let mut bench = Bench::new();
    for word in 0..8u8 {
        reads(&rt, &mut bench, word, 0)?;
        assert!(rt; bench.put(word, 0).is_ok());
    }
    assert_eq!(rt; *bench.inputs(), [0; 8]);
    assert_eq!(rt; *bench.outputs(), [0; 8]);
    assert_eq!(rt; *bench.answering_inputs(), [true; 8]);
    assert_eq!(rt; *bench.answering_outputs(), [true; 8]);
    Ok(())
}

#[test]
fn words_that_there_are_not(rt: HostRuntime) -> Result<(), Fail> {
    for word in 8..=255u8 {
        let mut bench = Bench::new();
        refused(&rt, bench.read(word), 16, word)?;
        refused(&rt, bench.put(word, 1), 16, word)?;
        refused(&rt, bench.set_input(word, 1), 16, word)?;
        refused(&rt, bench.set_input_answers(word, false), 16, word)?;
        refused(&rt, bench.set_output_answers(word, false), 16, word)?;
        assert_eq!(rt; *bench.inputs(), [0; 8]);
        assert_eq!(rt; *bench.outputs(), [0; 8]);
        assert_eq!(rt; *bench.answering_inputs(), [true; 8]);
        assert_eq!(rt; *bench.answering_outputs(), [true; 8]);
    }
    Ok(())
}

#[test]
fn silent_words(rt: HostRuntime) -> Result<(), Fail> {
    for word in 0..8u8 {
        let mut bench = Bench::new();
        assert!(rt; bench.set_input(word, 77).is_ok());
        assert!(rt; bench.put(word, 88).is_ok());
        assert!(rt; bench.set_input_answers(word, false).is_ok());
        assert!(rt; bench.set_output_answers(word, false).is_ok());
        refused(&rt, bench.read(word), 15, word)?;
        refused(&rt, bench.put(word, 99), 15, word)?;
        assert!(rt; bench.set_input(word, 65535).is_ok());
        assert!(rt; bench.set_input_answers(word, true).is_ok());
        assert!(rt; bench.set_output_answers(word, true).is_ok());
        reads(&rt, &mut bench, word, 65535)?;
        assert_eq!(rt; bench.outputs().get(word as usize).copied(), Some(88));
    }
    Ok(())
}

#[test]
fn words_are_apart(rt: HostRuntime) {
    let mut bench = Bench::new();
    for word in 0..8u8 {
        assert!(rt; bench.set_input(word, 100 + u16::from(word)).is_ok());
        assert!(rt; bench.put(word, 200 + u16::from(word)).is_ok());
    }
    assert_eq!(rt; *bench.inputs(), [100, 101, 102, 103, 104, 105, 106, 107]);
    assert_eq!(rt; *bench.outputs(), [200, 201, 202, 203, 204, 205, 206, 207]);
}
