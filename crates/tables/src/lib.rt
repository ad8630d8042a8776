// The records of the tables that a caller lends to a site, and in specs/ what a place of them tells.
#![tactic(auto)]

pub mod head;
pub mod mail;
pub mod turn;
