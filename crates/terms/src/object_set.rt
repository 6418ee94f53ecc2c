// A set of objects: an 8-bit number in which object o counts 2^(o - 1).
ghost use Rattle.std.specs.Prelude.{◌≡◌};
ghost use Rattle.terms.specs.Sets.{weight, member, joins, bits_of};

#[derive(Clone, Copy, Debug, PartialEq, Eq)]
pub struct ObjectSet {
    bits: u8,
}

impl ObjectSet {
    pub const EMPTY: ObjectSet = ObjectSet { bits: 0 };

    // The set with one object more; a number outside 1 to 8 adds none.
    pub fn with(self, object: u8) -> ObjectSet
        ensures { result ≡ joins object self }
    {
        ObjectSet {
            bits: self.bits | weight_of(object),
        }
    }

    // The set as a number, by the name that sets of bits give it.
    pub fn bits(self) -> u8
        ensures { result ≡ bits_of self }
    {
        self.bits
    }

    pub fn contains(self, object: u8) -> bool
        ensures { result ≡ member object self.bits }
    {
        matches!(object, 1..=8) && (self.bits >> (object - 1)) & 1 == 1
    }
}

// What an object counts in a set, 0 for a number outside 1 to 8.
fn weight_of(object: u8) -> u8
    ensures { result ≡ weight object }
{
    match object {
        1..=8 => 1 << (object - 1),
        _ => 0,
    }
}
