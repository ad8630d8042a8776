// What the places of heads and mail are made of: a copy, lists of names, the clock, how an item is told, and a place of a table.
#![tactic(auto)]

pub mod clock;
pub mod copied;
pub mod label;
pub mod names;
pub mod places;
