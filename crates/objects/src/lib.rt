// The objects of a cell: what a crew means, the three kinds of object, and joined crews.
#![tactic(auto)]

pub mod chart_object;
pub mod crew;
mod firing;
pub mod flat_object;
pub mod joined;
pub mod net_object;
pub mod object;
pub mod reaction;
mod ways;
pub mod worked;
