// What forbids a station, in the order in which it is looked at.
ghost use Rattle.std.specs.Prelude.{◌≡◌, ◌<◌, length, IfSome};
ghost use Rattle.std.specs.Result.{result_err};
ghost use Rattle.plan.specs.Verdict.{field_out_of_range, verdict, first_met};
ghost use Rattle.plan.specs.Building.{image_bytes, stations_of};

use crate::faults::{PlanFault, StationField};
use crate::limits::{MAX_STATIONS, mailbox_in_range};
use crate::plans::Plan;
use crate::stations::PlannedStation;
use crate::windows::{any_leaves, pair_meets};
use units::LinePosition;

impl PlannedStation {
    // Refuses the first of its fields that is out of range.
    fn check_fields(&self) -> Result<(), StationField>
        ensures { result_err result ≡ field_out_of_range self.now }
    {
        if !self.outputs().in_range() {
            return Err(StationField::Outputs);
        }
        if !self.inputs().in_range() {
            return Err(StationField::Inputs);
        }
        if !mailbox_in_range(self.mailbox()) {
            return Err(StationField::Mailbox);
        }
        Ok(())
    }
}

// The first of the stations that shares a bit with the new one.
fn first_met(stations: &[PlannedStation], new: &PlannedStation) -> Option<usize>
    ensures value { result ≡ first_met stations.now new.now }
    ensures within { IfSome result (λ i. i < length stations.now) }
{
    stations.iter().position(|earlier| earlier.meets(new))
}

impl Plan {
    // The first rule that the station breaks, held against the image, the earlier stations and itself.
    pub(crate) fn check(&self, station: &PlannedStation) -> Result<(), PlanFault>
        ensures { result_err result ≡ verdict (image_bytes self.now) (stations_of self.now) station.now }
    {
        let count = self.stations.len();
        let here = LinePosition(count as u16);
        let conflict = |earlier| PlanFault::WindowConflict {
            earlier,
            later: here,
        };
        if count >= MAX_STATIONS {
            return Err(PlanFault::TooManyStations { position: here });
        }
        station
            .check_fields()
            .map_err(|field| PlanFault::FieldOutOfRange {
                position: here,
                field,
            })?;
        let windows = station.windows();
        if any_leaves(&windows, &self.image()) {
            return Err(conflict(here));
        }
        if let Some(i) = first_met(self.stations.as_slice(), station) {
            return Err(conflict(LinePosition(i as u16)));
        }
        if pair_meets(&windows) {
            return Err(conflict(here));
        }
        Ok(())
    }
}
