// A Petri object: the first enabled transition of a signal fires.
ghost use Rattle.std.specs.Prelude.{◌≡◌, length};
ghost use Rattle.std.specs.List.{list_any};
ghost use Rattle.std.specs.Option.{option_map};
ghost use Rattle.terms.specs.Entries.{entries, values};
ghost use Rattle.terms.specs.Events.{content};
ghost use Rattle.terms.specs.Slots.{filled};
ghost use Rattle.tables.specs.Drawing.{net_drawing};
ghost use Rattle.tables.specs.declared.net.Net.{Net};
ghost use Rattle.objects.specs.Crews.{Reacts};
ghost use Rattle.objects.specs.Finding.{first_given};
ghost use Rattle.objects.specs.Nets.{of_signal, fires, shown, net_rule, NetMoves, NetAsDrawn};
ghost use Rattle.std.proofs.Common.{rules};

use crate::firing::fired;
use crate::object::Object;
use crate::reaction::{Reaction, Verdict};
use tables::net::{Net, Transition};
use terms::event::Event;
use terms::send::Send;
use terms::slots::Slots;

// The marks of the net are the current ones.
#[derive(Clone, Copy)]
pub struct NetObject {
    net: Net,
}

impl NetObject {
    // The object that a net describes, with the marks with which its places start.
    pub fn new(net: Net) -> NetObject
        ensures net { result.net ≡ net }
        ensures drawn { NetAsDrawn (net_drawing net) (net_rule (net_drawing result.net)) }
    {
        NetObject { net }
    }

    // The marks of the eight places.
    pub fn marks(&self) -> &[u8]
        ensures marks { result.now ≡ values self.now.net.marks }
        ensures count { length result.now ≡ 8 }
    {
        self.net.marks.as_slice()
    }

    // What the object does with an event, as its net is drawn.
    pub fn react(&mut self, event: &Event) -> Reaction
        ensures net { self.new.net ≡ record self.old.net { marks = self.new.net.marks } }
        ensures answer { Reacts 1 1 (net_rule (net_drawing self.old.net)) (values self.old.net.marks) (content event.now) result.verdict (entries result.sends) (values self.new.net.marks) }
        ensures drawn { NetMoves (entries self.old.net.transitions) (entries self.old.net.sends) (values self.old.net.marks) (content event.now).signal (record { verdict = result.verdict; next = values self.new.net.marks; sends = entries result.sends }) }
    {
        self.by_rule(event)
    }

    // What the rule of the net makes of an event.
    fn by_rule(&mut self, event: &Event) -> Reaction
        ensures net { self.new.net ≡ record self.old.net { marks = self.new.net.marks } }
        ensures answer { Reacts 1 1 (net_rule (net_drawing self.old.net)) (values self.old.net.marks) (content event.now) result.verdict (entries result.sends) (values self.new.net.marks) }
    {
        let signal = event.signal();
        match self.enabled(signal) {
            Some((transition, marks)) => {
                self.net.marks = marks;
                let mut reaction = Reaction::handled(&self.net.sends, transition.send);
                reaction.add(Some(Send::Recall));
                reaction
            }
            None if self.knows(signal) => Reaction::silent(Verdict::Deferred),
            None => Reaction::silent(Verdict::Ignored),
        }
    }

    // The first transition of a signal that is enabled, and the marks after it fired.
    fn enabled(&self, signal: u8) -> Option<(Transition, Slots<u8, 8>)>
        ensures { option_map shown result ≡ first_given (fires signal (values self.now.net.marks)) (entries self.now.net.transitions) }
    {
        self.net
            .transitions
            .as_slice()
            .iter()
            .find_map(|transition| self.fires(transition, signal))
    }

    // A transition and the marks after it fired, if it has the signal and is enabled.
    fn fires(&self, transition: &Transition, signal: u8) -> Option<(Transition, Slots<u8, 8>)>
        ensures { option_map shown result ≡ fires signal (values self.now.net.marks) transition.now }
    {
        if transition.signal != signal {
            return None;
        }
        Some((*transition, fired(transition, &self.net.marks)?))
    }

    // Whether some transition has a signal.
    fn knows(&self, signal: u8) -> bool
        ensures { result ≡ list_any (of_signal signal) (entries self.now.net.transitions) }
    {
        self.net
            .transitions
            .as_slice()
            .iter()
            .any(|transition| transition.signal == signal)
    }
}

impl Object for NetObject {
    ghost Drawing = { Net };

    // the net without its marks, which are the state
    ghost drawing = { λ o. record o.net { marks = filled 8 0 } };

    ghost state = { λ o. values o.net.marks };

    ghost rule = { λ d. net_rule (net_drawing d) };

    ghost quiet = { Prim.search rules };

    ghost few = { Prim.search rules };

    fn respond(&mut self, event: &Event) -> Reaction {
        self.react(event)
    }
}
