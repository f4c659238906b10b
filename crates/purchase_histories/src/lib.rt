//! Whole purchases through the top call, with cards over pages in memory: terminals that take turns, lost
//! messages, cards that are pulled out, settlement and audit.
#![tactic(auto)]

#[cfg(test)]
mod tests;
