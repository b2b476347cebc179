// Panels behind a reference to any.
ghost use Rattle.panel.specs.Meaning.{Sized};

use panel::{Bench, Panel, PanelFault};
use rack::Rack;
use std::process::Abort;
use std::test::Fail;

// Here no law of the trait is at hand: that there are eight words of each kind is what the call promises.
fn read_any(panel: &mut dyn Panel, word: u8) -> Result<u16, PanelFault>
    ensures { Sized (meaning panel.new) }
{
    panel.read(word)
}

fn put_any(panel: &mut dyn Panel, word: u8, value: u16) -> Result<(), PanelFault>
    ensures { Sized (meaning panel.new) }
{
    panel.put(word, value)
}

#[test]
fn any_panel(rt: HostRuntime) -> Result<(), Fail> {
    let mut bench = Bench::new();
    assert!(rt; bench.set_input(3, 77).is_ok());
    assert_eq!(rt; read_any(&mut bench, 3)?, 77);
    assert!(rt; put_any(&mut bench, 5, 88).is_ok());
    assert_eq!(rt; bench.outputs().get(5).copied(), Some(88));
    let mut rack = Rack::new();
    assert_eq!(rt; read_any(&mut rack, 0), Err(PanelFault::Silent(0)));
    assert_eq!(rt; put_any(&mut rack, 8, 1), Err(PanelFault::NoSuchWord(8)));
    Ok(())
}
