//! What a person's node answers, step by step, and what a node with little knowledge signs.
#![tactic(auto)]

#[cfg(test)]
mod desk;
#[cfg(test)]
mod messages;
#[cfg(test)]
mod nodes;
#[cfg(test)]
mod wallet;
#[cfg(test)]
mod wallets;
#[cfg(test)]
mod wishes;
