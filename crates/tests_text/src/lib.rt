//! Tests of `line_text`, `script_lang` and `plan_lang`, which stand apart so that those crates are proved once.
//!
//! What is expected was worked out by hand from the rules of the texts. A helper that reads a text gives back a text, a number
//! or a flag: a test that held a plan or an event over a `?` would take long to prove.
#![tactic(auto)]

#[cfg(test)]
mod common;
#[cfg(test)]
mod functions;
#[cfg(test)]
mod limits;
#[cfg(test)]
mod lines;
#[cfg(test)]
mod pieces;
#[cfg(test)]
mod plans;
#[cfg(test)]
mod reports;
