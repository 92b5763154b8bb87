//! What a participant follows, keeps, answers, says and signs. Expected values were worked out by hand.
#![tactic(auto)]

#[cfg(test)]
mod pair;
#[cfg(test)]
mod signing;
#[cfg(test)]
mod storing;
#[cfg(test)]
mod tables;
#[cfg(test)]
mod telling;
#[cfg(test)]
mod views;
#[cfg(test)]
mod watching;
