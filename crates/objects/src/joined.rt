// A joined crew: one object in front of any crew. The object is number 1, the others move up by one, and at most eight count.
ghost use Rattle.std.specs.Prelude.{◌≡◌, zero, suc, ◌+◌, min, refl};
ghost use Rattle.objects.specs.Crews.{states_behind, rules_behind};
ghost use Rattle.std.proofs.Common.{arith, rules};

use crate::crew::Crew;
use crate::reaction::{Reaction, Verdict};
use terms::event::Event;

#[derive(Drop)]
pub struct Joined<O, C> {
    pub front: O,
    pub others: C,
}

impl<O: Crew, C: Crew> Crew for Joined<O, C> {
    ghost count = { λ c. min 8 (1 + C.Crew.count c.others) };

    ghost state = { λ c o. states_behind (O.Crew.state c.front 1) (C.Crew.state c.others) o };

    ghost rule = { λ c o. rules_behind (O.Crew.rule c.front 1) (C.Crew.rule c.others) o };

    ghost counted = { Prim.search rules };

    ghost quiet = { λ c.
        elim [
          | zero ↦ λ s e other. (refl, refl)
          | suc zero ↦ λ s e other. O.Crew.quiet c.front 1 s e other
          | suc (suc n) ↦ λ s e other. C.Crew.quiet c.others (suc n) s e other
        ] };

    ghost few = { λ c.
        elim [
          | zero ↦ λ s e. omega arith
          | suc zero ↦ λ s e. O.Crew.few c.front 1 s e
          | suc (suc n) ↦ λ s e. C.Crew.few c.others (suc n) s e
        ] };

    fn len(&self) -> u8 {
        self.others.len().saturating_add(1).min(8)
    }

    fn handle(&mut self, object: u8, event: &Event) -> Reaction {
        match object {
            1 => self.front.handle(1, event),
            2..=8 => self.others.handle(object - 1, event),
            _ => Reaction::silent(Verdict::Ignored),
        }
    }
}
