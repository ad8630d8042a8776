// The protocol of a site: its calls and answers by their names, and in specs/ what each call does.
#![tactic(auto)]

pub mod answer;
pub mod call;
pub mod kind;
pub mod refusal;
pub mod state;
