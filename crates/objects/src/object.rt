// A single object: alone a crew of one.
ghost use Rattle.std.specs.Prelude.{◌≡◌, List, ℕ};
ghost use Rattle.std.proofs.Common.{rules};
ghost use Rattle.terms.specs.Entries.{entries};
ghost use Rattle.terms.specs.Events.{content};
ghost use Rattle.objects.specs.Crews.{Rule, Quiet, Few, Reacts, alone};

use crate::crew::Crew;
use crate::reaction::{Reaction, Verdict};
use terms::event::Event;

// What a single object means: what it is drawn from, which stays, its state, and the rule of what it is drawn from.
pub trait Object {
    ghost Drawing: { Type 0 };

    ghost drawing: { Self → Drawing };

    ghost state: { Self → List ℕ };

    ghost rule: { Drawing → Rule };

    // Gives an event to the object.
    fn respond(&mut self, event: &Event) -> Reaction
        ensures drawing { drawing self.new ≡ drawing self.old }
        ensures answer { Reacts 1 1 (rule (drawing self.old)) (state self.old) (content event.now) result.verdict (entries result.sends) (state self.new) };

    // an event that is not handled changes no state and sends nothing
    ghost quiet: { (d : Drawing) → Quiet (rule d) };

    // at most nine sends
    ghost few: { (d : Drawing) → Few (rule d) };
}

impl<O: Object> Crew for O {
    ghost count = { λ _. 1 };

    ghost state = { λ c o. alone (O.Object.state c) o };

    ghost rule = { λ c _. O.Object.rule (O.Object.drawing c) };

    ghost counted = { Prim.search rules };

    ghost quiet = { λ c _. O.Object.quiet (O.Object.drawing c) };

    ghost few = { λ c _. O.Object.few (O.Object.drawing c) };

    fn len(&self) -> u8 {
        1
    }

    fn handle(&mut self, object: u8, event: &Event) -> Reaction {
        if object == 1 {
            self.respond(event)
        } else {
            Reaction::silent(Verdict::Ignored)
        }
    }
}
