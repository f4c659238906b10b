//! Tests of whole runs through the top call: words, documents, reports, summaries, and sources and sinks
//! that fail.
#![tactic(auto)]

#[cfg(test)]
mod checking;
#[cfg(test)]
mod documents;
#[cfg(test)]
mod facts;
#[cfg(test)]
mod faults;
#[cfg(test)]
mod generating;
#[cfg(test)]
mod rows;
#[cfg(test)]
mod runs;
#[cfg(test)]
mod scenario_keys;
#[cfg(test)]
mod torn;
