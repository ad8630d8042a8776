// What a kind of value is, and how a value is told in numbers.
#![tactic(auto)]

pub mod value;
