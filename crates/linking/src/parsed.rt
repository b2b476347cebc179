ghost use Rattle.std.specs.Prelude.{◌≤◌, length};
ghost use Rattle.scanning.specs.Text.{longest};

use reading::Placed;

// A text that is not too long, and tokens of it.
#[derive(Clone, Copy)]
pub(crate) struct ParsedText<'a, 't> {
    pub(crate) text: &'a [u8],
    pub(crate) tokens: &'t [Placed<'a>],
    ghost short: { length text.now ≤ longest },
}
