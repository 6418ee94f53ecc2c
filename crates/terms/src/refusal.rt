// The refusals of every layer. A case stands for one reason, and one definition gives its number.
ghost use Rattle.std.specs.Prelude.{◌≡◌};
ghost use Rattle.terms.specs.Refusals.{number_of};

#[derive(Clone, Copy, Debug, PartialEq, Eq)]
pub enum Refusal {
    Words = 1,
    Signal = 2,
    Object = 3,
    Pool = 4,
    Length = 5,
    File = 6,
    Form = 7,
    Value = 8,
    Full = 9,
    NoFrame = 21,
    NoPlace = 22,
    NotLive = 23,
    NothingDeferred = 24,
}

// The number by which a listing shows the refusal.
impl From<Refusal> for u8 {
    ghost from_gives = { λ refusal number. number ≡ number_of refusal };

    fn from(refusal: Refusal) -> u8 {
        refusal as u8
    }
}
