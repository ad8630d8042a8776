// Tests of the kinds, the logs, the reader, cards and lines, as tables.
#![tactic(auto)]

#[cfg(test)]
mod card_tests;
#[cfg(test)]
mod kinds_tests;
#[cfg(test)]
mod lines_tests;
#[cfg(test)]
mod log_tests;
#[cfg(test)]
mod reader_tests;
