// The table of a Petri object: transitions between eight places.
use terms::send::Send;
use terms::slots::Slots;
use terms::table::Table;

// What a transition takes from each place and gives to it, and its send, if it has one.
#[derive(Clone, Copy, Debug, PartialEq, Eq)]
pub struct Transition {
    pub signal: u8,
    pub send: Option<u8>,
    pub takes: Slots<u8, 8>,
    pub gives: Slots<u8, 8>,
}

// What describes a Petri object: its transitions, the marks with which its places start, and the sends.
#[derive(Clone, Copy)]
pub struct Net {
    pub transitions: Table<Transition, 8>,
    pub marks: Slots<u8, 8>,
    pub sends: Table<Send, 32>,
}
