// The table of a flat object: states 1 to 16 and rows; the first row of a state and a signal decides.
use terms::send::Send;
use terms::table::Table;

#[derive(Clone, Copy, Debug, PartialEq, Eq)]
pub enum FlatAction {
    Move { next: u8, send: Option<u8> },
    Defer,
}

#[derive(Clone, Copy, Debug, PartialEq, Eq)]
pub struct FlatRow {
    pub state: u8,
    pub signal: u8,
    pub action: FlatAction,
}

// What describes a flat object: its rows, and the sends that they name.
#[derive(Clone, Copy)]
pub struct Flat {
    pub rows: Table<FlatRow, 64>,
    pub sends: Table<Send, 32>,
}
