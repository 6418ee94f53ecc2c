// A hierarchical object: of the active states, the innermost with a row that applies decides.
ghost use Rattle.std.specs.Prelude.{◌≡◌, ◌+◌, ◌≤◌, [], ◌∷◌, ◌++◌, length, find};
ghost use Rattle.terms.specs.Entries.{entries, numbered};
ghost use Rattle.terms.specs.Events.{content};
ghost use Rattle.tables.specs.Drawing.{chart_drawing};
ghost use Rattle.tables.specs.Limits.{ChartWithin};
ghost use Rattle.tables.specs.declared.chart.Chart.{Chart};
ghost use Rattle.objects.specs.Charts.{chain, applies, decides, first_word, crossing_in, crossings, left, entered, reached, move_sends, chart_rule, start_in};
ghost use Rattle.objects.specs.Crews.{Reacts};
ghost use Rattle.objects.specs.Moves.{Responds, ChartAsDrawn};
ghost use Rattle.objects.specs.Sending.{send_named};
ghost use Rattle.objects.specs.Walks.{few_sent};
ghost use Rattle.objects.specs.declared.reaction.Verdict.TheVariants as verdict;
ghost use Rattle.std.proofs.Common.{rules};

use crate::object::Object;
use crate::reaction::{Reaction, Verdict};
use crate::ways::{base_of, below, chain, outermost_first, reached};
use tables::chart::{Action, Chart, Crossing, Row, State};
use terms::event::Event;
use terms::send::Send;
use terms::table::Table;

#[derive(Clone, Copy)]
pub struct ChartObject {
    chart: Chart,
    state: u8,
}

impl ChartObject {
    // The object that a chart describes, in state 1 or where its initial targets lead.
    pub fn new(chart: Chart) -> ChartObject
        ensures chart { result.chart ≡ chart }
        ensures start { result.state ≡ start_in (entries chart.states) }
        ensures drawn { ChartWithin (chart_drawing chart) → ChartAsDrawn (chart_drawing chart) (chart_rule (chart_drawing result.chart)) }
    {
        let state = start_of(&chart.states);
        ChartObject { chart, state }
    }

    // The current state; if the chart has no states 0, the top.
    pub fn state(&self) -> u8
        ensures { result ≡ self.now.state }
    {
        self.state
    }

    // What the object does with an event, as its chart is drawn.
    pub fn react(&mut self, event: &Event) -> Reaction
        ensures chart { self.new.chart ≡ self.old.chart }
        ensures answer { Reacts 1 1 (chart_rule (chart_drawing self.old.chart)) (self.old.state ∷ []) (content event.now) result.verdict (entries result.sends) (self.new.state ∷ []) }
        ensures drawn { ChartWithin (chart_drawing self.old.chart) → self.old.state ≤ length (entries self.old.chart.states) → Responds (chart_drawing self.old.chart) self.old.state (content event.now) (record { verdict = result.verdict; next = self.new.state ∷ []; sends = entries result.sends }) }
    {
        self.by_rule(event)
    }

    // What the rule of the chart makes of an event.
    fn by_rule(&mut self, event: &Event) -> Reaction
        ensures chart { self.new.chart ≡ self.old.chart }
        ensures answer { Reacts 1 1 (chart_rule (chart_drawing self.old.chart)) (self.old.state ∷ []) (content event.now) result.verdict (entries result.sends) (self.new.state ∷ []) }
    {
        let Some(row) = self.row(event.signal(), first_word(event)) else {
            return Reaction::silent(Verdict::Ignored);
        };
        match row.action {
            Action::Move { target, send } => self.go(row.state, target, send),
            Action::Stay { send } => Reaction::handled(&self.chart.sends, send),
            Action::Defer => Reaction::silent(Verdict::Deferred),
        }
    }

    // The row that decides, searched from the current state upward.
    fn row(&self, signal: u8, word: u32) -> Option<Row>
        ensures { result ≡ decides (entries self.now.chart.rows) (chain (entries self.now.chart.states) self.now.state) signal word }
    {
        chain(&self.chart.states, self.state)
            .as_slice()
            .iter()
            .find_map(|state| self.row_of(*state, signal, word))
    }

    // The first row of a state and a signal that applies by the first word.
    fn row_of(&self, state: u8, signal: u8, word: u32) -> Option<Row>
        ensures { result ≡ find (applies state signal word) (entries self.now.chart.rows) }
    {
        // A `for`, since `find` takes half as long again over many rows.
        for row in self.chart.rows.as_slice() {
            if applies(row, state, signal, word) {
                return Some(*row);
            }
        }
        None
    }

    // Moves by a row that stands in one state and names another as its target.
    fn go(&mut self, from: u8, to: u8, send: Option<u8>) -> Reaction
        ensures chart { self.new.chart ≡ self.old.chart }
        ensures state { self.new.state ≡ reached (entries self.old.chart.states) to }
        ensures verdict { result.verdict ≡ verdict.Handled }
        ensures sends { entries result.sends ≡ move_sends (entries self.old.chart.states) (entries self.old.chart.sends) send (left (entries self.old.chart.states) self.old.state from to) (entered (entries self.old.chart.states) from to) }
    {
        let states = &self.chart.states;
        let base = base_of(states, from, to);
        let reached = reached(states, to);
        let left = chain(states, self.state);
        let entered = outermost_first(below(base, chain(states, reached).as_slice()));
        let mut reaction = Reaction::handled(&self.chart.sends, send);
        self.cross(below(base, left.as_slice()), Crossing::Exit, &mut reaction);
        self.cross(entered.as_slice(), Crossing::Entry, &mut reaction);
        self.state = reached;
        reaction
    }

    // Adds the sends of states that are all left or all entered, in order.
    fn cross(&self, states: &[u8], crossing: Crossing, reaction: &mut Reaction)
        requires { length (entries reaction.old.sends) + length states.now ≤ 9 }
        ensures verdict { reaction.new.verdict ≡ reaction.old.verdict }
        ensures sends { entries reaction.new.sends ≡ entries reaction.old.sends ++ crossings (entries self.now.chart.states) (entries self.now.chart.sends) crossing states.now }
    {
        for state in states {
            reaction.add(self.crossing(*state, crossing));
        }
    }

    // The send of a state on a crossing, if it has one.
    fn crossing(&self, state: u8, crossing: Crossing) -> Option<Send>
        ensures { result ≡ send_named (entries self.now.chart.sends) (crossing_in crossing (numbered (entries self.now.chart.states) state)) }
    {
        let number = self.chart.states.get(state as usize)?.crossing(crossing)?;
        self.chart.sends.get(number as usize)
    }
}

// Whether a row is of a state and a signal, and applies by the first word.
fn applies(row: &Row, state: u8, signal: u8, word: u32) -> bool
    ensures { result ≡ applies state signal word row.now }
{
    row.state == state && row.signal == signal && row.guard.lets(word)
}

// State 1, or where its initial targets lead; 0 with no states.
fn start_of(states: &Table<State, 32>) -> u8
    ensures { result ≡ start_in (entries states.now) }
{
    if states.is_empty() {
        0
    } else {
        reached(states, 1)
    }
}

// The first word of an event, 0 if it has none.
fn first_word(event: &Event) -> u32
    ensures { result ≡ first_word (content event.now).words }
{
    event.words().first().copied().unwrap_or(0)
}

impl Object for ChartObject {
    ghost Drawing = { Chart };

    ghost drawing = { λ o. o.chart };

    ghost state = { λ o. o.state ∷ [] };

    ghost rule = { λ d. chart_rule (chart_drawing d) };

    ghost quiet = { Prim.search rules };

    ghost few = { λ d. few_sent (chart_drawing d) };

    fn respond(&mut self, event: &Event) -> Reaction {
        self.react(event)
    }
}
