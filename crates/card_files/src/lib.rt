//! The images of a card's applications: what stands on a card before its first transaction, the rules
//! that an image keeps to, and its files (EMV 4.3 Book 3 section 5.3) with the file control
//! information (EMV 4.3 Book 1 section 11.3.4) and the payment system directory (EMV 4.3 Book 1
//! section 12.2).
#![tactic(auto)]

pub mod app;
mod control;
pub mod fault;
mod files;
pub mod image;
pub mod lists;
pub mod rules;

pub use app::{AppImage, RecordImage};
pub use control::DIRECTORY_NAME;
pub use fault::ImageFault;
pub use image::{Image, directory_fci};
