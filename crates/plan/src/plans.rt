// A plan, with what it always keeps.
ghost use Rattle.std.specs.Prelude.{◌≡◌, ◌≤◌, true, false, length};
ghost use Rattle.plan.specs.Limits.{image_in_range, max_stations};
ghost use Rattle.plan.specs.Verdict.{any_out_of_range};
ghost use Rattle.plan.specs.Windows.{image_bits, any_leaves, pair_meets};
ghost use Rattle.plan.specs.Stations.{all_windows};

use crate::stations::PlannedStation;

// An image and the stations that share it, in line order. Each window lies in the image, and no
// two windows share a bit: only calls that check this make a plan or add to it.
#[derive(Drop)]
pub struct Plan {
    pub(crate) bytes: u32,
    pub(crate) stations: Vec<PlannedStation>,
    ghost image: { image_in_range bytes ≡ true },
    ghost few: { length stations.items ≤ max_stations },
    ghost fields: { any_out_of_range stations.items ≡ false },
    ghost inside: { any_leaves (image_bits bytes) (all_windows stations.items) ≡ false },
    ghost apart: { pair_meets (all_windows stations.items) ≡ false },
}
