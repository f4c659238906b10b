//! Data objects in words: values by their form, objects within objects, and the fields of object lists.
#![tactic(auto)]

pub mod bits;
pub mod command;
pub mod fields;
pub mod issuer;
pub mod object;
pub mod phrases;
pub mod results;
pub mod style;
pub mod track;

pub use bits::tell_bit_word;
pub use command::tell_script_command;
pub use fields::{tell_fields, tell_fields_beside};
pub use issuer::tell_response_words;
pub use object::{Object, next_item, tell_lone_object, tell_object, tell_objects, tell_value};
pub use results::tell_results;
pub use style::{KnownCodes, ResultsStyle, Style};
