// Policies: which of the objects that are ready is served next.
#![tactic(auto)]

pub mod policy;
pub mod rotating;
pub mod strict;
