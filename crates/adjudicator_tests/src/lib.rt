//! Steps, support and challenges, worked out by hand.
#![tactic(auto)]

#[cfg(test)]
mod amounts;
#[cfg(test)]
mod balances;
#[cfg(test)]
mod built;
#[cfg(test)]
mod chains;
#[cfg(test)]
mod challenges;
#[cfg(test)]
mod checked;
#[cfg(test)]
mod claims;
#[cfg(test)]
mod consensus;
#[cfg(test)]
mod deadlines;
#[cfg(test)]
mod dues;
#[cfg(test)]
mod holdings;
#[cfg(test)]
mod items;
#[cfg(test)]
mod payment;
#[cfg(test)]
mod signed;
#[cfg(test)]
mod steps;
#[cfg(test)]
mod toward;
