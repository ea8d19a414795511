// What is said of a plan: its stations and a picture of its image, or why it is refused.
#![tactic(auto)]

pub mod accepted;
mod conflicts;
pub mod pictures;
pub mod places;
pub mod refused;
pub mod signs;

pub use accepted::Accepted;
pub use pictures::Picture;
pub use refused::Rejected;
pub use signs::sign_of;
