// The tables of a cell's objects, and the sends that they share. Each call adds an entry or replaces a part, or
// refuses and leaves everything as it was: a full table first, then any value out of range or not declared.
#![tactic(auto, unfolding(crate::specs::Drawing::add_send, crate::specs::Drawing::add_state, crate::specs::Drawing::set_initial, crate::specs::Drawing::add_row, crate::specs::Drawing::add_flat_row, crate::specs::Drawing::add_transition, crate::specs::Drawing::set_arc, crate::specs::Drawing::state_of, crate::specs::Drawing::row_of, crate::specs::Drawing::flat_row_of, crate::specs::Drawing::transition_of, crate::specs::Drawing::send_of))]

ghost use Rattle.std.specs.Prelude.{◌≡◌};
ghost use Rattle.terms.specs.Calls.{Follows};
ghost use Rattle.terms.specs.Entries.{entries};
ghost use Rattle.tables.specs.Drawing.{drawn, undrawn, chart_in, chart_drawing, flat_in, flat_drawing, net_in, net_drawing, blank_transition, send_of, send_number, state_number, parent_of, descends, state_of, action_of, row_of, flat_action_of, flat_row_of, transition_of, add_send, add_state, set_initial, add_row, add_flat_row, set_marks, add_transition, set_arc};
ghost use Rattle.tables.specs.Limits.{DrawingWithin, ChartWithin};
ghost use Rattle.tables.specs.Props.{DrawingWithin-prop};

use crate::chart::{Action, Chart, Guard, Row, RowNumbers, State, parent_of};
use crate::flat::{Flat, FlatAction, FlatRow};
use crate::net::{Net, Transition};
use terms::range::between;
use terms::send::Send;
use terms::slots::Slots;
use terms::table::{Table, TableFault};

#[derive(Clone, Copy)]
pub struct Tables {
    sends: Table<Send, 32>,
    states: Table<State, 32>,
    rows: Table<Row, 64>,
    flat_rows: Table<FlatRow, 64>,
    marks: Slots<u8, 8>,
    transitions: Table<Transition, 8>,

    pub ghost within: { DrawingWithin (drawn sends states rows flat_rows marks transitions) } by { DrawingWithin-prop (drawn sends states rows flat_rows marks transitions) },
}

impl Tables {
    ghost use Rattle.tables.specs.Tables.{drawing};

    // Nothing declared yet, and no marks. Where it was inlined, the tables were filled and moved field by field.
    #[inline(never)]
    pub fn new() -> Tables
        ensures { drawing result ≡ undrawn }
    {
        let state = State {
            parent: 0,
            entry: None,
            exit: None,
            initial: None,
        };
        let row = Row {
            state: 0,
            signal: 0,
            guard: Guard::Always,
            action: Action::Defer,
        };
        let flat_row = FlatRow {
            state: 0,
            signal: 0,
            action: FlatAction::Defer,
        };
        Tables {
            sends: Table::new(Send::Recall),
            states: Table::new(state),
            rows: Table::new(row),
            flat_rows: Table::new(flat_row),
            marks: Slots::new(0),
            transitions: Table::new(blank_transition(0, None)),
        }
    }

    // What describes the hierarchical object.
    pub fn chart(&self) -> Chart
        ensures part { chart_drawing result ≡ chart_in (drawing self.now) }
        ensures limits { ChartWithin (chart_drawing result) }
    {
        Chart {
            states: self.states,
            rows: self.rows,
            sends: self.sends,
        }
    }

    // What describes the flat object.
    pub fn flat(&self) -> Flat
        ensures { flat_drawing result ≡ flat_in (drawing self.now) }
    {
        Flat {
            rows: self.flat_rows,
            sends: self.sends,
        }
    }

    // What describes the Petri object.
    pub fn net(&self) -> Net
        ensures { net_drawing result ≡ net_in (drawing self.now) }
    {
        Net {
            transitions: self.transitions,
            marks: self.marks,
            sends: self.sends,
        }
    }

    // The next send.
    pub fn add_send(
        &mut self,
        kind: u16,
        object: u16,
        signal: u16,
        word: u16,
    ) -> Result<(), TableFault>
        ensures { Follows (add_send (drawing self.old) kind object signal word) result (drawing self.old) (drawing self.new) }
    {
        self.sends.add(send_of(kind, object, signal, word))
    }

    // The next state of the chart.
    pub fn add_state(&mut self, parent: u16, entry: u16, exit: u16) -> Result<(), TableFault>
        ensures { Follows (add_state (drawing self.old) parent entry exit) result (drawing self.old) (drawing self.new) }
    {
        let state = self.state_of(parent, entry, exit);
        self.states.add(state)
    }

    // Where a state leads when it is the one that a move reaches.
    pub fn set_initial(&mut self, state: u16, target: u16) -> Result<(), TableFault>
        ensures { Follows (set_initial (drawing self.old) state target) result (drawing self.old) (drawing self.new) }
    {
        let found = self.states.get(state as usize).ok_or(TableFault::Value)?;
        if target as usize > self.states.len() || !self.descends(target, state) {
            return Err(TableFault::Value);
        }
        let initial = Some(target as u8);
        self.states
            .replace(state as usize, State { initial, ..found });
        Ok(())
    }

    // The next row of the chart.
    pub fn add_row(&mut self, numbers: RowNumbers) -> Result<(), TableFault>
        ensures { Follows (add_row (drawing self.old) numbers) result (drawing self.old) (drawing self.new) }
    {
        let row = self.row_of(numbers);
        self.rows.add(row)
    }

    // The next row of the flat object.
    pub fn add_flat_row(
        &mut self,
        state: u16,
        signal: u16,
        kind: u16,
        next: u16,
        send: u16,
    ) -> Result<(), TableFault>
        ensures { Follows (add_flat_row (drawing self.old) state signal kind next send) result (drawing self.old) (drawing self.new) }
    {
        let row = self.flat_row_of(state, signal, kind, next, send);
        self.flat_rows.add(row)
    }

    // The marks with which a place of the net starts.
    pub fn set_marks(&mut self, place: u16, marks: u16) -> Result<(), TableFault>
        ensures { Follows (set_marks (drawing self.old) place marks) result (drawing self.old) (drawing self.new) }
    {
        let place = between(1, place, 8).ok_or(TableFault::Value)?;
        let marks = between(0, marks, 255).ok_or(TableFault::Value)?;
        self.marks.set(place as usize, marks);
        Ok(())
    }

    // The next transition of the net, with no takes and gives yet.
    pub fn add_transition(&mut self, signal: u16, send: u16) -> Result<(), TableFault>
        ensures { Follows (add_transition (drawing self.old) signal send) result (drawing self.old) (drawing self.new) }
    {
        let transition = self.transition_of(signal, send);
        self.transitions.add(transition)
    }

    // What a transition takes from a place and gives to it.
    pub fn set_arc(
        &mut self,
        transition: u16,
        place: u16,
        take: u16,
        give: u16,
    ) -> Result<(), TableFault>
        ensures { Follows (set_arc (drawing self.old) transition place take give) result (drawing self.old) (drawing self.new) }
    {
        let mut found = self
            .transitions
            .get(transition as usize)
            .ok_or(TableFault::Value)?;
        if !matches!((place, take, give), (1..=8, 0..=255, 0..=255)) {
            return Err(TableFault::Value);
        }
        found.takes.set(place as usize, take as u8);
        found.gives.set(place as usize, give as u8);
        self.transitions.replace(transition as usize, found);
        Ok(())
    }

    // Another parent than 0 has to be declared, and its chain has room for one state more.
    fn state_of(&self, parent: u16, entry: u16, exit: u16) -> Option<State>
        ensures { result ≡ state_of (drawing self.now) parent entry exit }
    {
        if self.parent(self.parent(self.parent(parent))) != 0 {
            return None;
        }
        Some(State {
            parent: between(0, parent, self.states.len() as u8)?,
            entry: self.send_number(entry).ok()?,
            exit: self.send_number(exit).ok()?,
            initial: None,
        })
    }

    // The parent of a state, 0 at the top and for a state that is not declared.
    fn parent(&self, state: u16) -> u16
        ensures { result ≡ parent_of (entries self.now.states) state }
    {
        parent_of(&self.states, state as usize) as u16
    }

    // One, two or three steps up from the one state is the other.
    fn descends(&self, state: u16, above: u16) -> bool
        ensures { result ≡ descends (entries self.now.states) state above }
    {
        let first = self.parent(state);
        let second = self.parent(first);
        let third = self.parent(second);
        first == above || second == above || third == above
    }

    // A row of a declared state and a signal.
    fn row_of(&self, numbers: RowNumbers) -> Option<Row>
        ensures { result ≡ row_of (drawing self.now) numbers }
    {
        Some(Row {
            state: self.state_number(numbers.state)?,
            signal: between(1, numbers.signal, 64)?,
            guard: Guard::from_numbers(numbers.guard, numbers.value)?,
            action: self.action_of(numbers.kind, numbers.target, numbers.send)?,
        })
    }

    // What a kind of row does; fields that the kind does not use are 0.
    fn action_of(&self, kind: u16, target: u16, send: u16) -> Option<Action>
        ensures { result ≡ action_of (drawing self.now) kind target send }
    {
        let send = self.send_number(send).ok()?;
        match (kind, target, send) {
            (0, target, send) => Some(Action::Move {
                target: self.state_number(target)?,
                send,
            }),
            (1, 0, send) => Some(Action::Stay { send }),
            (2, 0, None) => Some(Action::Defer),
            _ => None,
        }
    }

    // A row of a state from 1 to 16 and a signal.
    fn flat_row_of(
        &self,
        state: u16,
        signal: u16,
        kind: u16,
        next: u16,
        send: u16,
    ) -> Option<FlatRow>
        ensures { result ≡ flat_row_of (drawing self.now) state signal kind next send }
    {
        Some(FlatRow {
            state: between(1, state, 16)?,
            signal: between(1, signal, 64)?,
            action: self.flat_action_of(kind, next, send)?,
        })
    }

    // What a kind of flat row does; a deferral has zeros.
    fn flat_action_of(&self, kind: u16, next: u16, send: u16) -> Option<FlatAction>
        ensures { result ≡ flat_action_of (drawing self.now) kind next send }
    {
        let send = self.send_number(send).ok()?;
        match (kind, next, send) {
            (0, next, send) => Some(FlatAction::Move {
                next: between(1, next, 16)?,
                send,
            }),
            (2, 0, None) => Some(FlatAction::Defer),
            _ => None,
        }
    }

    // A transition on a signal, with no takes and gives yet.
    fn transition_of(&self, signal: u16, send: u16) -> Option<Transition>
        ensures { result ≡ transition_of (drawing self.now) signal send }
    {
        Some(blank_transition(between(1, signal, 64)?, self.send_number(send).ok()?))
    }

    // The send that a number names: 0 names none, and another has to be declared.
    fn send_number(&self, send: u16) -> Result<Option<u8>, TableFault>
        ensures { result ≡ send_number (drawing self.now) send }
    {
        let number = between(0, send, self.sends.len() as u8).ok_or(TableFault::Value)?;
        Ok((number != 0).then_some(number))
    }

    // The number of a declared state.
    fn state_number(&self, state: u16) -> Option<u8>
        ensures { result ≡ state_number (drawing self.now) state }
    {
        between(1, state, self.states.len() as u8)
    }
}

fn blank_transition(signal: u8, send: Option<u8>) -> Transition
    ensures { result ≡ blank_transition signal send }
{
    Transition {
        signal,
        send,
        takes: Slots::new(0),
        gives: Slots::new(0),
    }
}

// A post names an object and a signal, a publish a signal, a recall nothing.
fn send_of(kind: u16, object: u16, signal: u16, word: u16) -> Option<Send>
    ensures { result ≡ send_of kind object signal word }
{
    match (kind, object, signal, word) {
        (1, 1..=8, 1..=64, word) => Some(Send::Post {
            object: object as u8,
            signal: signal as u8,
            word: word as u32,
        }),
        (2, 0, 1..=64, word) => Some(Send::Publish {
            signal: signal as u8,
            word: word as u32,
        }),
        (3, 0, 0, 0) => Some(Send::Recall),
        _ => None,
    }
}
