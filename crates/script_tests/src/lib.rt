//! Sources and scripts, whole and broken; and runs that are read from their text and drawn.
#![tactic(auto)]

#[cfg(test)]
mod broken;
#[cfg(test)]
mod drawing;
#[cfg(test)]
mod limits;
#[cfg(test)]
mod payouts;
#[cfg(test)]
mod races;
#[cfg(test)]
mod reading;
#[cfg(test)]
mod releases;
#[cfg(test)]
mod scripts;
#[cfg(test)]
mod sources;
