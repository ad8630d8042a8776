// What is sent and dropped in one pass over the mail.
#![tactic(auto)]

pub mod passes;
