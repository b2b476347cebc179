// The reads and puts of an interval, over each panel by one generic function.
use panel::{Bench, Panel, PanelFault, put_all, read_all};
use rack::Rack;
use std::process::Abort;
use std::test::Fail;
use tape::Tape;

const WORDS: [u16; 8] = [1, 20, 300, 4000, 50000, 65535, 0, 8];

// What an interval reads, and which words are silent at its puts.
fn interval<P: Panel>(panel: &mut P) -> (Result<[u16; 8], PanelFault>, u8) {
    let read = read_all(panel);
    let mask = put_all(panel, &WORDS);
    (read, mask)
}

fn runs<P: Panel>(
    rt: &impl Abort,
    panel: &mut P,
    read: Result<[u16; 8], PanelFault>,
    mask: u8,
) -> Result<(), Fail> {
    let (got, silent) = interval(panel);
    assert_eq!(rt; got, read);
    assert_eq!(rt; silent, mask);
    Ok(())
}

#[test]
fn over_bench(rt: HostRuntime) -> Result<(), Fail> {
    let mut bench = Bench::new();
    runs(&rt, &mut bench, Ok([0; 8]), 0)?;
    assert_eq!(rt; *bench.outputs(), WORDS);
    assert!(rt; bench.set_input(5, 55).is_ok());
    assert!(rt; bench.set_output_answers(0, false).is_ok());
    assert!(rt; bench.set_output_answers(7, false).is_ok());
    runs(&rt, &mut bench, Ok([0, 0, 0, 0, 0, 55, 0, 0]), 129)?;
    assert!(rt; bench.set_input_answers(6, false).is_ok());
    assert!(rt; bench.set_input_answers(2, false).is_ok());
    runs(&rt, &mut bench, Err(PanelFault::Silent(2)), 129)?;
    assert_eq!(rt; *bench.outputs(), WORDS);
    Ok(())
}

#[test]
fn over_tape(rt: HostRuntime) -> Result<(), Fail> {
    let mut tape = Tape::new(
        b"     1     2     3     4     5     6     7     8\n     1     2     3     4     -     6     -     8\n",
    )?;
    runs(&rt, &mut tape, Err(PanelFault::Silent(0)), 0)?;
    assert_eq!(rt; *tape.outputs(), WORDS);
    tape.move_on();
    runs(&rt, &mut tape, Ok([1, 2, 3, 4, 5, 6, 7, 8]), 0)?;
    tape.move_on();
    runs(&rt, &mut tape, Err(PanelFault::Silent(4)), 0)?;
    tape.move_on();
    runs(&rt, &mut tape, Err(PanelFault::Silent(0)), 0)
}

#[test]
fn over_rack(rt: HostRuntime) -> Result<(), Fail> {
    let mut rack = Rack::new();
    runs(&rt, &mut rack, Err(PanelFault::Silent(0)), 255)?;
    rack.set_inputs([9; 8]);
    rack.set_cards([true, true, false, true]);
    runs(&rt, &mut rack, Err(PanelFault::Silent(4)), 48)?;
    rack.set_cards([true; 4]);
    runs(&rt, &mut rack, Ok([9; 8]), 0)
}
