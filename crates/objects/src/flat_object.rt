// A flat object: the first row of its state and a signal decides.
ghost use Rattle.std.specs.Prelude.{◌≡◌, [], ◌∷◌};
ghost use Rattle.terms.specs.Entries.{entries};
ghost use Rattle.terms.specs.Events.{content};
ghost use Rattle.tables.specs.Drawing.{flat_in, flat_drawing};
ghost use Rattle.tables.specs.Tables.{drawing};
ghost use Rattle.tables.specs.declared.flat.Flat.{Flat};
ghost use Rattle.objects.specs.Crews.{Reacts};
ghost use Rattle.objects.specs.Flats.{first_row, flat_rule, FlatResponds, FlatAsDrawn};
ghost use Rattle.std.proofs.Common.{rules};

use crate::object::Object;
use crate::reaction::{Reaction, Verdict};
use tables::flat::{Flat, FlatAction, FlatRow};
use tables::tables::Tables;
use terms::event::Event;

#[derive(Clone, Copy)]
pub struct FlatObject {
    flat: Flat,
    state: u8,
}

impl FlatObject {
    // The object that the flat rows of a cell describe, in state 1.
    pub fn new(tables: &Tables) -> FlatObject
        ensures flat { flat_drawing result.flat ≡ flat_in (drawing tables.now) }
        ensures start { result.state ≡ 1 }
        ensures drawn { FlatAsDrawn (flat_in (drawing tables.now)) (flat_rule (flat_drawing result.flat)) }
    {
        FlatObject {
            flat: tables.flat(),
            state: 1,
        }
    }

    pub fn state(&self) -> u8
        ensures { result ≡ self.now.state }
    {
        self.state
    }

    // What the object does with an event, as its rows say.
    pub fn react(&mut self, event: &Event) -> Reaction
        ensures flat { self.new.flat ≡ self.old.flat }
        ensures answer { Reacts 1 1 (flat_rule (flat_drawing self.old.flat)) (self.old.state ∷ []) (content event.now) result.verdict (entries result.sends) (self.new.state ∷ []) }
        ensures drawn { FlatResponds (flat_drawing self.old.flat) self.old.state (content event.now) (record { verdict = result.verdict; next = self.new.state ∷ []; sends = entries result.sends }) }
    {
        self.by_rule(event)
    }

    // What the rule of the rows makes of an event.
    fn by_rule(&mut self, event: &Event) -> Reaction
        ensures flat { self.new.flat ≡ self.old.flat }
        ensures answer { Reacts 1 1 (flat_rule (flat_drawing self.old.flat)) (self.old.state ∷ []) (content event.now) result.verdict (entries result.sends) (self.new.state ∷ []) }
    {
        match self.row(event.signal()).map(|row| row.action) {
            Some(FlatAction::Move { next, send }) => {
                self.state = next;
                Reaction::handled(&self.flat.sends, send)
            }
            Some(FlatAction::Defer) => Reaction::silent(Verdict::Deferred),
            None => Reaction::silent(Verdict::Ignored),
        }
    }

    // The first row of the object's state and a signal.
    fn row(&self, signal: u8) -> Option<FlatRow>
        ensures { result ≡ first_row (entries self.now.flat.rows) self.now.state signal }
    {
        self.flat
            .rows
            .as_slice()
            .iter()
            .copied()
            .find(|row| row.state == self.state && row.signal == signal)
    }
}

impl Object for FlatObject {
    ghost Drawing = { Flat };

    ghost drawing = { λ o. o.flat };

    ghost state = { λ o. o.state ∷ [] };

    ghost rule = { λ d. flat_rule (flat_drawing d) };

    ghost quiet = { Prim.search rules };

    ghost few = { Prim.search rules };

    fn respond(&mut self, event: &Event) -> Reaction {
        self.react(event)
    }
}
