//! Tests of what a card keeps and is made of: its state with what decisions make of it, the policy of its
//! cryptograms, and the images of its applications.
#![tactic(auto)]

#[cfg(test)]
mod decisions;
#[cfg(test)]
mod image_faults;
#[cfg(test)]
mod image_limits;
#[cfg(test)]
mod images;
#[cfg(test)]
mod policies;
#[cfg(test)]
mod state_bytes;
