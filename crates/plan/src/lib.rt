// A plan: an image, and the stations whose windows of it never share a bit.
#![tactic(auto)]

pub mod building;
pub mod counters;
pub mod faults;
pub mod limits;
pub mod mappings;
pub mod owners;
pub mod plans;
pub mod stations;
pub mod verdicts;
pub mod windows;

pub use faults::{PlanError, PlanFault, StationField};
pub use owners::Owner;
pub use plans::Plan;
pub use stations::PlannedStation;
pub use windows::{Direction, MappedWindow, Window};
