// The tables of a cell's objects: sends, a chart, flat rows and a net, as they are declared.
#![tactic(auto)]

pub mod chart;
pub mod flat;
pub mod net;
pub mod tables;
