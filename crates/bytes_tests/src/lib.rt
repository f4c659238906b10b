//! The crates of bytes by rows: data objects, commands and answers, maps of objects, the dictionary, object lists
//! and the ports.
#![tactic(auto)]

#[cfg(test)]
mod commands;
#[cfg(test)]
mod dictionary;
#[cfg(test)]
mod filled_lists;
#[cfg(test)]
mod gathered_objects;
#[cfg(test)]
mod object_encoding;
#[cfg(test)]
mod pages_that_tear;
#[cfg(test)]
mod streams;
