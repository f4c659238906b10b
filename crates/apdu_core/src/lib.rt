//! Commands and responses between the terminal and the card (ISO/IEC 7816-4 section 5, EMV 4.3
//! Book 3 section 6): short lengths, one grammar for reading and writing.
#![tactic(auto)]

pub mod command;
pub mod response;
pub mod status;

pub use command::{ApduFault, Command, Out, read_command, write_command, write_record_command};
pub use response::{Answer, Response, read_response, write_response};
