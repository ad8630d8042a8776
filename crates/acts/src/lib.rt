// What one head does at a call, and what it makes of one place of the mail.
#![tactic(auto)]

pub mod delivering;
pub mod making;
pub mod reading;
pub mod telling;
pub mod writing;
