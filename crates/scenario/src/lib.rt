// The scenario file: a cell and a script as text. Reading checks every line before anything may run.
#![tactic(auto)]

mod digits;
mod draft;
pub mod fault;
mod line;
pub mod listing;
pub mod part;
pub mod reader;
pub mod script;
mod script_line;
pub mod setting;
mod setup_line;
mod table_line;
