//! Words, runs over sources and sinks that fail, the scripts of loads, and the names in a text.
#![tactic(auto)]

#[cfg(test)]
mod loads;
#[cfg(test)]
mod names;
#[cfg(test)]
mod runs;
#[cfg(test)]
mod words;
