//! Tests of the words and of the calls, through public calls alone.
#![tactic(auto)]

#[cfg(test)]
mod calls;
#[cfg(test)]
mod devices;
#[cfg(test)]
mod nemeses;
#[cfg(test)]
mod steady;
#[cfg(test)]
mod words;
