// Values numbered from 1.
ghost use Rattle.std.specs.Prelude.{◌≡◌};
ghost use Rattle.terms.specs.Entries.{numbered, among, replaced};

pub(crate) fn value_at<T: Copy>(values: &[T], number: usize) -> Option<T>
    ensures { result ≡ numbered values.now number }
{
    values.get(number.checked_sub(1)?).copied()
}

// Puts a value in the place of the one with that number; false where there is none.
pub(crate) fn replace_at<T: Copy>(values: &mut [T], number: usize, value: T) -> bool
    ensures accepted { result ≡ among values.old number }
    ensures after { values.new ≡ replaced values.old number value }
{
    if number == 0 || number > values.len() {
        return false;
    }
    values[number - 1] = value;
    true
}
