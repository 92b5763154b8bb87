//! Tests of lines that last: a run fails at each call, and each file that a crash may leave is restarted. Also what a
//! node reads in lines, and which channels it says are final by a time.
#![tactic(auto)]

mod crashes;
mod memory;
#[cfg(test)]
mod node_texts;
#[cfg(test)]
mod running_out;
mod tally;
#[cfg(test)]
mod tests;
#[cfg(test)]
mod told;
