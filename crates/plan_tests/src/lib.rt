//! What the tables of stages want and call, and what a plan is worth, worked out by hand.
#![tactic(auto)]

#[cfg(test)]
mod built;
#[cfg(test)]
mod exits;
#[cfg(test)]
mod shares;
#[cfg(test)]
mod stages;
#[cfg(test)]
mod targets;
