// A head's turn in a tick.
#![tactic(auto)]

pub mod activity;
pub mod inquirers;
pub mod turn;
