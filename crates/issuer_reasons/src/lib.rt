//! On what an issuer's code rests: from a request's amount and currency, its reply, and what is known of the account
//! beside the report and by the replies before.
#![tactic(auto)]

pub mod account;
pub mod issuer;
pub mod wanted;

pub use account::{Account, AccountNow, Charge, account_now, charge_account};
pub use issuer::{
    IssuerReason, KnownAccounts, Reply, charge_approved, issuer_reason, reply_of, tell_issuer,
};
pub use wanted::{Wanted, tell_currency};
