// The mail of a site: one place of it, and the search for the item to be brought.
#![tactic(auto)]

pub mod delivery;
pub mod item;
