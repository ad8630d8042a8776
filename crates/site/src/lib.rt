// The calls of a signal site over tables that its caller lends.
#![tactic(auto)]

pub mod site;
