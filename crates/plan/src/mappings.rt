// The windows of a station as one list.
ghost use Rattle.std.specs.Prelude.{◌≡◌};
ghost use Rattle.plan.specs.Stations.{windows, stations_meet};

use crate::stations::PlannedStation;
use crate::windows::{Direction, MappedWindow, any_meet};

impl PlannedStation {
    // Every window of the station, with its direction.
    pub fn windows(&self) -> [MappedWindow; 2]
        ensures { result ≡ windows self.now }
    {
        [
            MappedWindow {
                direction: Direction::Output,
                window: self.outputs(),
            },
            MappedWindow {
                direction: Direction::Input,
                window: self.inputs(),
            },
        ]
    }

    // Whether one of its windows shares a bit with one of the other's.
    pub(crate) fn meets(&self, other: &PlannedStation) -> bool
        ensures { result ≡ stations_meet self.now other.now }
    {
        any_meet(&self.windows(), &other.windows())
    }
}
