// Frames as they stand on the wire: judged whole, then read datagram by datagram, in place.
#![tactic(auto)]

mod areas;
pub mod datagrams;
pub mod faults;
mod headers;
mod judging;
pub mod limits;
pub mod reading;

pub use datagrams::{Datagram, Part, Token};
pub use faults::FrameFault;
pub use reading::{Tokens, read_frame};
