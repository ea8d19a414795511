// What is told of a text of frames in hex, one to a line.
#![tactic(auto)]

pub mod dissection;
pub mod reports;
pub mod rewriting;

pub use dissection::Dissection;
pub use reports::{FrameReport, report};
pub use rewriting::Rewriting;
