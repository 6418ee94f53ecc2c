// The kernel of a cell. So far its set-up: pools, queue lengths, subscriptions, and the choice of a policy.
#![tactic(auto)]

pub mod discipline;
pub mod fault;
pub mod layout;
