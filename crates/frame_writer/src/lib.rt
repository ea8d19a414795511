// Writes frames over a lent buffer. What is written is read again as it was given.
#![tactic(auto)]

pub mod adding;
mod encoding;
pub mod faults;
pub mod finishing;
pub mod whole;
pub mod writers;

pub use faults::WriteFault;
pub use whole::{rewrite_frame, write_frame};
pub use writers::Writer;
