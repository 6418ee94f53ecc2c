// Numbers in a range.
ghost use Rattle.std.specs.Prelude.{◌≡◌};
ghost use Rattle.std.specs.Bool.{then_some};
ghost use Rattle.terms.specs.Ranges.{between};

// The number, if it lies between low and high.
pub fn between(low: u8, number: u16, high: u8) -> Option<u8>
    ensures { result ≡ then_some (between low number high) number }
{
    u8::try_from(number)
        .ok()
        .filter(|n| (low..=high).contains(n))
}
