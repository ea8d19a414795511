// Making a plan, adding to it, and what it holds.
ghost use Rattle.std.specs.Prelude.{◌≡◌, ◌≤◌, true, false, length, MatchResult};
ghost use Rattle.std.specs.Result.{result_err};
ghost use Rattle.plan.specs.declared.faults.PlanError.TheVariants.{Memory};
ghost use Rattle.plan.specs.Limits.{max_stations, image_in_range};
ghost use Rattle.plan.specs.Windows.{image_bits, range_of};
ghost use Rattle.plan.specs.Stations.{all_windows};
ghost use Rattle.plan.specs.Verdict.{any_out_of_range, empty_verdict};
ghost use Rattle.plan.specs.Meaning.{Exclusive, Sound};
ghost use Rattle.plan.specs.Building.{image_bytes, stations_of, Started, Added};

use crate::faults::{PlanError, PlanFault};
use crate::limits::image_in_range;
use crate::plans::Plan;
use crate::stations::PlannedStation;
use std::alloc::Global;
use units::{ImageBit, Span};

impl Plan {
    // A plan for an image of so many bytes, as yet with no station.
    pub fn new(heap: Global, bytes: u32) -> Result<Plan, PlanFault>
        ensures { Started bytes result }
    {
        if !image_in_range(bytes) {
            return Err(PlanFault::ImageLength);
        }
        Ok(Plan {
            bytes,
            stations: Vec::new(heap),
        })
    }

    // Adds a station behind the others, or refuses it and leaves the plan as it was.
    pub fn add(&mut self, station: PlannedStation) -> Result<(), PlanError>
        ensures done { Added self.old station result self.new }
        ensures exact { MatchResult result (λ _. Sound (image_bytes self.old) (stations_of self.old) station) (λ e. Sound (image_bytes self.old) (stations_of self.old) station → e ≡ Memory) }
    {
        self.check(&station)?;
        self.stations.push(station)?;
        Ok(())
    }

    pub fn image_bytes(&self) -> u32
        ensures value { result ≡ image_bytes self.now }
        ensures range { image_in_range result ≡ true }
    {
        self.bytes
    }

    // All bits of the image.
    pub fn image(&self) -> Span<ImageBit>
        ensures { range_of result ≡ image_bits (image_bytes self.now) }
    {
        Span {
            first: ImageBit(0),
            count: 8 * self.image_bytes(),
        }
    }

    // The stations, by position. Each of their windows lies in the image, and no bit of it belongs to two windows.
    pub fn stations(&self) -> &[PlannedStation]
        ensures value { result.now ≡ stations_of self.now }
        ensures few { length result.now ≤ max_stations }
        ensures fields { any_out_of_range result.now ≡ false }
        ensures exclusive { Exclusive (image_bytes self.now) (all_windows result.now) }
    {
        self.stations.as_slice()
    }

    // A plan that is to be used has a station.
    pub fn check_not_empty(&self) -> Result<(), PlanFault>
        ensures { result_err result ≡ empty_verdict (stations_of self.now) }
    {
        if self.stations.is_empty() {
            return Err(PlanFault::NoStations);
        }
        Ok(())
    }
}
