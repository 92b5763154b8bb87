//! Chains of payment channels of two people with keys, and challenges with them. The first person moves to even
//! turns, and pays 1 at turns 4 and 6.
#![tactic(auto)]

#[cfg(test)]
mod rows;
mod signed_chains;
#[cfg(test)]
mod tables;

pub use signed_chains::{chain, chain_signed_as, challenge};
