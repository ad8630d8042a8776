// Whether a tick can be made: its turns are counted through before anything is altered.
#![tactic(auto)]

mod counting;
mod forecast;
mod survey;
pub mod tick;
mod turns;
