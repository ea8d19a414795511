// The working counter that a plan expects.
ghost use Rattle.std.specs.Prelude.{◌≡◌, ◌≤◌};
ghost use Rattle.plan.specs.Counter.{has_bits, weight, expected_counter};
ghost use Rattle.plan.specs.Building.{stations_of};

use crate::plans::Plan;
use crate::stations::PlannedStation;
use crate::windows::Direction;

impl PlannedStation {
    // Whether one of its windows of that direction has bits.
    fn has_bits(&self, direction: Direction) -> bool
        ensures { result ≡ has_bits direction self.now }
    {
        self.windows().iter().any(|mapped| mapped.direction == direction && mapped.window.bits > 0)
    }

    // What it adds to the working counter of an exchange, when it is in SafeOp or Op.
    pub(crate) fn weight(&self) -> u16
        ensures value { result ≡ weight self.now }
        ensures bound { result ≤ 3 }
    {
        u16::from(self.has_bits(Direction::Input)) + 2 * u16::from(self.has_bits(Direction::Output))
    }
}

impl Plan {
    // The working counter of an exchange in which every station takes part: 1 for each with inputs, 2 for each with outputs.
    pub fn expected_counter(&self) -> u16
        ensures { result ≡ expected_counter (stations_of self.now) }
    {
        // A loop and no chain, by a rule of this project (docs/DECISIONS.md, "Forms that were asked for").
        let mut sum = 0;
        for station in self.stations.iter() {
            sum += station.weight();
        }
        sum
    }
}
