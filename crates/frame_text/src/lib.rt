// Frames as text: read from hex, and what is found in them line by line.
#![tactic(auto)]

pub mod digits;
pub mod hex;
pub mod lines;
pub mod refusals;

pub use hex::{HexError, read_hex};
pub use lines::DatagramLine;
pub use refusals::RefusalLine;
