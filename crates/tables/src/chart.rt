// The table of a hierarchical object: states in chains of parents, and rows that say what an event does.
ghost use Rattle.std.specs.Prelude.{◌≡◌};
ghost use Rattle.terms.specs.Entries.{entries};
ghost use Rattle.tables.specs.Drawing.{guard_of, lets, parent_of, crossing_of};

use terms::send::Send;
use terms::table::Table;

// A state, numbered from 1 as declared: its parent, 0 at the top, the sends on entering and on leaving it, and its
// initial target, if it has them.
#[derive(Clone, Copy, Debug, PartialEq, Eq)]
pub struct State {
    pub parent: u8,
    pub entry: Option<u8>,
    pub exit: Option<u8>,
    pub initial: Option<u8>,
}

// Whether a row applies, by the event's first word.
#[derive(Clone, Copy, Debug, PartialEq, Eq)]
pub enum Guard {
    Always,
    Is(u16),
    Under(u16),
}

// What a row does, with a send or none.
#[derive(Clone, Copy, Debug, PartialEq, Eq)]
pub enum Action {
    Move { target: u8, send: Option<u8> },
    Stay { send: Option<u8> },
    Defer,
}

#[derive(Clone, Copy, Debug, PartialEq, Eq)]
pub struct Row {
    pub state: u8,
    pub signal: u8,
    pub guard: Guard,
    pub action: Action,
}

// The numbers by which a row is declared. Guard 0 is always, 1 equal to the value, 2 below it; kind 0 is a move, 1 a
// stay, 2 a deferral.
#[derive(Clone, Copy, Debug, PartialEq, Eq)]
pub struct RowNumbers {
    pub state: u16,
    pub signal: u16,
    pub guard: u16,
    pub value: u16,
    pub kind: u16,
    pub target: u16,
    pub send: u16,
}

// The border of a state is crossed on leaving it and on entering it.
#[derive(Clone, Copy, Debug, PartialEq, Eq)]
pub enum Crossing {
    Exit,
    Entry,
}

// What describes a hierarchical object: its states, its rows, and the sends that they name.
#[derive(Clone, Copy)]
pub struct Chart {
    pub states: Table<State, 32>,
    pub rows: Table<Row, 64>,
    pub sends: Table<Send, 32>,
}

// The parent of a state, 0 at the top, which the rules number so, and for a state that is not declared.
pub fn parent_of(states: &Table<State, 32>, state: usize) -> u8
    ensures { result ≡ parent_of (entries states.now) state }
{
    states.get(state).map_or(0, |found| found.parent)
}

impl State {
    // The number of the send on a crossing, if there is one.
    pub fn crossing(&self, crossing: Crossing) -> Option<u8>
        ensures { result ≡ crossing_of crossing self.now }
    {
        match crossing {
            Crossing::Exit => self.exit,
            Crossing::Entry => self.entry,
        }
    }
}

impl Guard {
    // The guard that a row names by two numbers; without a comparison the second is 0. Two numbers make it, so that it is no
    // `TryFrom`, and there is one reason why they may not.
    pub fn from_numbers(guard: u16, value: u16) -> Option<Guard>
        ensures { result ≡ guard_of guard value }
    {
        match (guard, value) {
            (0, 0) => Some(Guard::Always),
            (1, word) => Some(Guard::Is(word)),
            (2, word) => Some(Guard::Under(word)),
            _ => None,
        }
    }

    // Whether a row with this guard applies, by the event's first word.
    pub fn lets(self, word: u32) -> bool
        ensures { result ≡ lets self word }
    {
        match self {
            Guard::Always => true,
            Guard::Is(value) => word == value as u32,
            Guard::Under(value) => word < value as u32,
        }
    }
}
