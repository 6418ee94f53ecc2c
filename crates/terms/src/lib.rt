// The words that every layer speaks: refusals, sends, events, sets of objects, and tables in fixed memory.
#![tactic(auto)]

pub mod event;
mod numbers;
pub mod object_set;
pub mod range;
pub mod refusal;
pub mod send;
pub mod slots;
pub mod table;
