// Whose bit of the image it is.
ghost use Rattle.std.specs.Prelude.{◌≡◌, ◌*◌};
ghost use Rattle.plan.specs.Owners.{direction_at, owner_from, free_below, OneOwner};
ghost use Rattle.plan.specs.Building.{image_bytes, stations_of};

use crate::plans::Plan;
use crate::windows::{Direction, MappedWindow};
use units::{ImageBit, LinePosition};

// A station by its position, and whether the bit is one of its outputs or of its inputs.
#[derive(Clone, Copy)]
pub struct Owner {
    pub position: LinePosition,
    pub direction: Direction,
}

// The direction of the window that has the bit.
fn direction_at(windows: &[MappedWindow], bit: ImageBit) -> Option<Direction>
    ensures { result ≡ direction_at windows.now bit.0 }
{
    windows
        .iter()
        .find(|mapped| mapped.window.has(bit))
        .map(|mapped| mapped.direction)
}

impl Plan {
    // Whose bit it is: no window has it, or the windows of one owner alone.
    pub fn owner(&self, bit: ImageBit) -> Option<Owner>
        ensures value { result ≡ owner_from 0 (stations_of self.now) bit.0 }
        ensures means { OneOwner (stations_of self.now) bit.0 result }
    {
        self.stations.iter().enumerate().find_map(|(i, station)| {
            direction_at(&station.windows(), bit).map(|direction| Owner {
                position: LinePosition(i as u16),
                direction,
            })
        })
    }

    // How many bits of the image belong to no window.
    pub fn free_bits(&self) -> u32
        ensures { result ≡ free_below (stations_of self.now) (8 * image_bytes self.now) }
    {
        (0..8 * self.image_bytes())
            .filter(|bit| self.owner(ImageBit(*bit)).is_none())
            .count() as u32
    }
}
