// What is summed up over the instructions ahead of a place.
ghost use Rattle.std.specs.Prelude.{◌≡◌, ◌+◌, min};
ghost use Rattle.weights.specs.Ahead.{Rule};
ghost use Rattle.weights.specs.Weights.{steps, modules, held};

pub(crate) trait Tally: Copy {
    ghost rule: { Rule Self };

    // At `Return`, and behind the code.
    fn end() -> Self
        ensures { result ≡ rule.ends };

    // Before an instruction that leads to one place.
    fn go(self) -> Self
        ensures { result ≡ rule.goes self };

    // Before a test, with what lies ahead behind the instructions that it passes over.
    fn test(self, behind: Self) -> Self
        ensures { result ≡ rule.tests self behind };

    // Before a call, with what lies ahead of the next place.
    fn call(self, next: Self) -> Self
        ensures { result ≡ rule.calls self next };
}

// The sum, held at 60,001.
fn held_sum(a: u32, b: u32) -> u32
    ensures { result ≡ min 60001 (a + b) }
{
    a.saturating_add(b).min(60001)
}

// Steps, held at 60,001.
impl Tally for u32 {
    ghost rule = { held 60001 steps };

    fn end() -> u32 {
        1
    }

    fn go(self) -> u32 {
        held_sum(self, 1)
    }

    fn test(self, behind: u32) -> u32 {
        held_sum(self.max(behind), 1)
    }

    fn call(self, next: u32) -> u32 {
        held_sum(held_sum(self, 1), next)
    }
}

// Modules below, held at 9.
impl Tally for u8 {
    ghost rule = { held 9 modules };

    fn end() -> u8 {
        0
    }

    fn go(self) -> u8 {
        self.min(9)
    }

    fn test(self, behind: u8) -> u8 {
        self.max(behind).min(9)
    }

    fn call(self, next: u8) -> u8 {
        (self.min(8) + 1).max(next).min(9)
    }
}
