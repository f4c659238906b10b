//! Tests of what is read and what is printed: the keys of a scenario, a generated one, traces, the lines of
//! reports, and lines at a reader.
#![tactic(auto)]

#[cfg(test)]
mod facts;
#[cfg(test)]
mod fields;
#[cfg(test)]
mod generation;
#[cfg(test)]
mod lines;
#[cfg(test)]
mod preambles;
#[cfg(test)]
mod traces;
