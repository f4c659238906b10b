//! BER-TLV data objects as EMV 4.3 Book 3 Annex B narrows ISO/IEC 8825-1: tags of one to three
//! bytes and definite lengths of one to three bytes.
#![tactic(auto)]

pub mod buffer;
pub mod cursor;
pub mod direct;
pub mod item;
pub mod tag;
pub mod walk;
pub mod write;

pub use buffer::append;
pub use cursor::{Cursor, first_fault};
pub use direct::{first_value, nth_value, sole_value, template_fault};
pub use item::{Item, TlvFault, place_or_zero, read_tag};
pub use tag::{Tag, is_constructed, is_readable};
pub use walk::deep_fault;
pub use write::{Full, tag_bytes, write_item, written_length};
