// The heads of a site: what happens to one of them, and searches over their places.
#![tactic(auto)]

pub mod changes;
pub mod places;
pub mod searches;
