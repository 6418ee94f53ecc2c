// The strict policy picks the highest member.
ghost use Rattle.std.specs.Prelude.{◌≡◌, true, [], length, refl};
ghost use Rattle.terms.specs.Sets.{bits_of};
ghost use Rattle.policies.specs.Picks.{highest, every, is_highest};
ghost use Rattle.policies.specs.Highest.{member-highest};

use crate::policy::Policy;
use terms::object_set::ObjectSet;

// The highest member of each set, and 0 for the empty set: the table that the rules ask for.
const HIGHEST: [u8; 256] = [
    0, 1, 2, 2, 3, 3, 3, 3, 4, 4, 4, 4, 4, 4, 4, 4, 5, 5, 5, 5, 5, 5, 5, 5, 5, 5, 5, 5, 5, 5, 5, 5,
    6, 6, 6, 6, 6, 6, 6, 6, 6, 6, 6, 6, 6, 6, 6, 6, 6, 6, 6, 6, 6, 6, 6, 6, 6, 6, 6, 6, 6, 6, 6, 6,
    7, 7, 7, 7, 7, 7, 7, 7, 7, 7, 7, 7, 7, 7, 7, 7, 7, 7, 7, 7, 7, 7, 7, 7, 7, 7, 7, 7, 7, 7, 7, 7,
    7, 7, 7, 7, 7, 7, 7, 7, 7, 7, 7, 7, 7, 7, 7, 7, 7, 7, 7, 7, 7, 7, 7, 7, 7, 7, 7, 7, 7, 7, 7, 7,
    8, 8, 8, 8, 8, 8, 8, 8, 8, 8, 8, 8, 8, 8, 8, 8, 8, 8, 8, 8, 8, 8, 8, 8, 8, 8, 8, 8, 8, 8, 8, 8,
    8, 8, 8, 8, 8, 8, 8, 8, 8, 8, 8, 8, 8, 8, 8, 8, 8, 8, 8, 8, 8, 8, 8, 8, 8, 8, 8, 8, 8, 8, 8, 8,
    8, 8, 8, 8, 8, 8, 8, 8, 8, 8, 8, 8, 8, 8, 8, 8, 8, 8, 8, 8, 8, 8, 8, 8, 8, 8, 8, 8, 8, 8, 8, 8,
    8, 8, 8, 8, 8, 8, 8, 8, 8, 8, 8, 8, 8, 8, 8, 8, 8, 8, 8, 8, 8, 8, 8, 8, 8, 8, 8, 8, 8, 8, 8, 8,
];

#[derive(Clone, Copy, Debug, PartialEq, Eq)]
pub struct Strict;

impl Policy for Strict {
    ghost memory = { λ _. [] };

    ghost choice = { λ _ s. highest s };

    ghost later = { λ m _. m };

    ghost chosen = { λ m s under some. member-highest s under some };

    ghost idle = { unfold highest in λ m. (refl, refl) };

    fn pick(&mut self, ready: ObjectSet) -> u8 {
        highest_of(ready)
    }
}

// The table, whose every entry is the highest member of the set that it stands for.
fn table() -> &'static [u8]
    ensures size { length result.now ≡ 256 }
    ensures rule { every is_highest 0 result.now ≡ true }
{
    &HIGHEST
}

fn highest_of(set: ObjectSet) -> u8
    ensures { result ≡ highest (bits_of set) }
{
    table()[usize::from(set.bits())]
}
