// Numbers as text: decimal, 0 to 65535, with no leading zero.
ghost use Rattle.std.specs.Prelude.{◌≡◌, ℕ, ◌≤◌, decimal, MatchOption, ◌≢◌};

// The number of which the bytes are just the text: digits, of which a first zero stands alone. It is read digit by digit,
// since `parse` takes more instructions for each byte of a file.
#[tactic(auto, using(crate::proofs::Numerals::decimal_led))]
pub(crate) fn number(digits: &[u8]) -> Option<u16>
    ensures { MatchOption result ((n : ℕ) → n ≤ 65535 → decimal n ≢ digits.now) (λ n. (n ≤ 65535) × (decimal n ≡ digits.now)) }
{
    if matches!(digits, [] | [b'0', _, ..]) {
        return None;
    }
    let mut value: u16 = 0;
    for digit in digits {
        let digit = char::from(*digit).to_digit(10)?;
        value = u16::try_from(u32::from(value) * 10 + digit).ok()?;
    }
    Some(value)
}
