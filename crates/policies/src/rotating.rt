// The rotating policy goes round: it picks the first member met from its turn on, 1 after 8.
ghost use Rattle.std.specs.Prelude.{◌≡◌, ◌≤◌, [], ◌∷◌};
ghost use Rattle.std.proofs.Common.{ap};
ghost use Rattle.terms.specs.Sets.{bits_of};
ghost use Rattle.policies.specs.Picks.{onward, first_met, met, turned};
ghost use Rattle.policies.specs.Turns.{met_member, met_empty};

use crate::policy::Policy;
use terms::object_set::ObjectSet;

#[derive(Clone, Copy, Debug, PartialEq, Eq)]
pub struct Rotating {
    turn: u8,
    ghost least: { 1 ≤ turn },
    ghost most: { turn ≤ 8 },
}

impl Rotating {
    // At first it is the turn of object 1.
    pub fn new() -> Rotating
        ensures { result.turn ≡ 1 }
    {
        Rotating { turn: 1 }
    }

    // The first member met, and 0 in the empty set, as `pick` answers it. A loop goes round, since the check has no list for a
    // range of numbers.
    fn first_met(&self, set: ObjectSet) -> u8
        ensures { result ≡ met (self.now.turn ∷ []) (bits_of set) }
    {
        let mut object = self.turn;
        for _ in 0..8u8 {
            if set.contains(object) {
                return object;
            }
            object = next(object);
        }
        0
    }
}

impl Policy for Rotating {
    ghost memory = { λ p. p.turn ∷ [] };

    ghost choice = { λ m s. met m s };

    ghost later = { λ m s. turned m (met m s) };

    ghost chosen = { λ m s under some. met_member m s under some };

    ghost idle = { λ m. (met_empty m, ap (turned m) (met_empty m)) };

    fn pick(&mut self, ready: ObjectSet) -> u8 {
        let object = self.first_met(ready);
        if object != 0 {
            self.turn = next(object);
        }
        object
    }
}

// The number after an object's, 1 after 8.
fn next(object: u8) -> u8
    ensures after { result ≡ onward object }
    ensures least { 1 ≤ result }
    ensures most { result ≤ 8 }
{
    if object < 8 { object + 1 } else { 1 }
}
