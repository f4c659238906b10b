//! The vectors of the ciphers and of the keys of a card, of application cryptograms and of PIN blocks.
#![tactic(auto)]

#[cfg(test)]
mod block_cipher;
#[cfg(test)]
mod codes;
#[cfg(test)]
mod cryptograms;
#[cfg(test)]
mod keys;
#[cfg(test)]
mod pin_blocks;
