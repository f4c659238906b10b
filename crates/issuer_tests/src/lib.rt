//! Tests of the issuer's side: orders, the ledger, messages and replies in both dialects, their way over a
//! link, and the reasons of the host's replies.
#![tactic(auto)]

#[cfg(test)]
mod changes;
#[cfg(test)]
mod facts;
#[cfg(test)]
mod iso_messages;
#[cfg(test)]
mod iso_samples;
#[cfg(test)]
mod ledgers;
#[cfg(test)]
mod links;
#[cfg(test)]
mod messages;
#[cfg(test)]
mod orders;
#[cfg(test)]
mod reasons;
