// A plan as text: what its lines say, and the plan that they make or why they make none.
#![tactic(auto)]

pub mod expected;
mod keywords;
pub mod named;
pub mod reading;
pub mod said;
mod stages;

pub use expected::Expected;
pub use named::NamedPlan;
pub use reading::{ReadError, read_plan};
pub use said::{Line, StationLine, read_line};
