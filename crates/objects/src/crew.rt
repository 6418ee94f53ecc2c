// A crew: the objects of a cell, each with a state and a rule.
ghost use Rattle.std.specs.Prelude.{◌≡◌, ℕ, ◌≤◌, List, ◌≢◌};
ghost use Rattle.terms.specs.Entries.{entries};
ghost use Rattle.terms.specs.Events.{content};
ghost use Rattle.objects.specs.Crews.{Rule, Quiet, Few, Reacts};

use crate::reaction::Reaction;
use terms::event::Event;

// What a crew means: how many objects it has, each object's state, and each object's rule.
pub trait Crew {
    ghost count: { Self → ℕ };

    ghost state: { Self → ℕ → List ℕ };

    ghost rule: { Self → ℕ → Rule };

    fn len(&self) -> u8
        ensures { result ≡ count self.now };

    // Gives an event to an object, and moves that object alone.
    fn handle(&mut self, object: u8, event: &Event) -> Reaction
        ensures size { count self.new ≡ count self.old }
        ensures rules { (o : ℕ) → rule self.new o ≡ rule self.old o }
        ensures others { (o : ℕ) → (o ≢ object) → state self.new o ≡ state self.old o }
        ensures answer { Reacts (count self.old) object (rule self.old object) (state self.old object) (content event.now) result.verdict (entries result.sends) (state self.new object) };

    // one to eight objects
    ghost counted: { (c : Self) → (1 ≤ count c) × (count c ≤ 8) };

    // an event that is not handled changes no state and sends nothing
    ghost quiet: { (c : Self) (o : ℕ) → Quiet (rule c o) };

    // at most nine sends
    ghost few: { (c : Self) (o : ℕ) → Few (rule c o) };
}
