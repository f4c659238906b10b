//! What each line of a report is told by.
use crate::{Filter, Terminal};
use issuer_reasons::Account;
use purchase_reasons::CardApp;
use std::alloc::Global;

/// What lines are told by, whatever lines came before: which are left, and what is known of the terminals, the cards and
/// the accounts beside the report.
#[derive(Drop)]
pub struct Basis {
    pub alloc: Global,
    pub filter: Filter,
    pub terminals: Vec<Terminal>,
    pub card_apps: Vec<CardApp>,
    pub accounts: Vec<Account>,
}
