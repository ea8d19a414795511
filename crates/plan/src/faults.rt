// Why a plan, or a station of it, is refused.
ghost use Rattle.std.specs.Prelude.{◌≡◌};
ghost use Rattle.plan.specs.Faults.{number, place};
ghost use Rattle.plan.specs.declared.faults.PlanError.TheVariants.{Refused, Memory};

use std::alloc::{AllocError, AllocFailed as NoRoom};
use units::LinePosition;

// A field of a planned station.
#[derive(Clone, Copy, Debug, PartialEq, Eq)]
pub enum StationField {
    Outputs,
    Inputs,
    Mailbox,
}

#[derive(Clone, Copy, Debug, PartialEq, Eq)]
pub enum PlanFault {
    // the image has no byte or too many
    ImageLength,
    // a plan that is to be used has one at least
    NoStations,
    TooManyStations {
        position: LinePosition,
    },
    FieldOutOfRange {
        position: LinePosition,
        field: StationField,
    },
    // A window of the later station leaves the image or shares a bit with one of the earlier.
    // The rules ask for both positions: the station's own twice where no other station is met.
    WindowConflict {
        earlier: LinePosition,
        later: LinePosition,
    },
}

#[derive(Clone, Copy, Debug, PartialEq, Eq)]
pub enum PlanError {
    Refused(PlanFault),
    Memory,
}

// A number and a place, as the rules ask. No trait for all faults: places differ (a position, an offset),
// and each crate tells its own.
impl PlanFault {
    // The rule that is broken.
    pub fn number(&self) -> u16
        ensures { result ≡ number self.now }
    {
        match *self {
            PlanFault::ImageLength
            | PlanFault::NoStations
            | PlanFault::TooManyStations { .. }
            | PlanFault::FieldOutOfRange { .. } => 6,
            PlanFault::WindowConflict { .. } => 7,
        }
    }

    // The position of the station at fault, the later of two; 0 where it is no station.
    pub fn place(&self) -> u16
        ensures { result ≡ place self.now }
    {
        match *self {
            PlanFault::ImageLength | PlanFault::NoStations => 0,
            PlanFault::TooManyStations { position } | PlanFault::FieldOutOfRange { position, .. } =>
                position.0,
            PlanFault::WindowConflict { later, .. } => later.0,
        }
    }
}

// Written out: a derive would not say which case is made.
impl From<PlanFault> for PlanError {
    ghost from_gives = { λ fault e. e ≡ Refused fault };

    fn from(fault: PlanFault) -> PlanError {
        PlanError::Refused(fault)
    }
}

impl From<AllocError> for PlanError {
    ghost from_gives = { λ _ e. e ≡ Memory };

    fn from(_e: AllocError) -> PlanError {
        PlanError::Memory
    }
}

impl<T: Drop> From<NoRoom<T>> for PlanError {
    ghost from_gives = { λ _ e. e ≡ Memory };

    fn from(_e: NoRoom<T>) -> PlanError {
        PlanError::Memory
    }
}
