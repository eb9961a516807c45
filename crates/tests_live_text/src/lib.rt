//! Tests of live texts: which are refused and why, and how what they come to is printed. What is expected was worked out by hand
//! from the rules of the text.
#![tactic(auto)]

#[cfg(test)]
mod limits;
#[cfg(test)]
mod printed;
#[cfg(test)]
mod refusals;
