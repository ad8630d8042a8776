// Tests of scripts and of the lines of calls, as tables.
#![tactic(auto)]

#[cfg(test)]
mod line_tests;
#[cfg(test)]
mod script_tests;
