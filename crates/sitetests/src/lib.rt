// Tests of the site's calls, as tables.
#![tactic(auto)]

#[cfg(test)]
mod foreign_tests;
#[cfg(test)]
mod make_tests;
#[cfg(test)]
mod refusal_tests;
#[cfg(test)]
mod run_tests;
#[cfg(test)]
mod tick_tests;
#[cfg(test)]
mod worlds;
