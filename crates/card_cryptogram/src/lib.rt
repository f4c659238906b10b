//! What a card's transaction is made of beside its image: the phase that it has come to, its
//! cryptograms over the data of an object list, and the orders and codes that its issuer sends under
//! session keys (EMV 4.3 Book 2 sections 8 and 9, Book 3 section 6.5).
#![tactic(auto)]

mod asked;
mod bodies;
mod fields;
mod issuer;
mod options;
mod orders;
mod phase;
mod sales;
mod scripts;

pub use asked::{
    NEXT_OCCURRENCE, has_issuer_auth, is_by_name, is_class, is_name_size, is_of_list,
    is_record_named, kind_asked, phase_behind,
};
pub use bodies::{Body, cryptogram, issuer_data, put, replace, write_body};
pub use fields::{TerminalFields, code_given, first_given, given_from};
pub use issuer::{auth_of, authentication, is_authenticated, is_authentication_size, steered_by};
pub use options::write_options;
pub use orders::{ScriptCommand, limit_order, limit_to, pin_order, plain_order, size_of};
pub use phase::{First, Phase};
pub use sales::sale_of;
pub use scripts::{block_in, block_of, has_code};
