//! The terminal's steps that exchange commands and answers with a card, by rows of dialogues.
#![tactic(auto)]

#[cfg(test)]
mod choosing;
#[cfg(test)]
mod cryptogram_steps;
#[cfg(test)]
mod directory;
#[cfg(test)]
mod hexadecimal;
#[cfg(test)]
mod reading;
#[cfg(test)]
mod scripts;
#[cfg(test)]
mod selection;
#[cfg(test)]
mod terminal;
