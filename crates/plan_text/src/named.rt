// A plan whose stations may have names.
ghost use Rattle.std.specs.Prelude.{◌≡◌};

use crate::reading::ReadError;
use crate::said::StationLine;
use plan::{Plan, PlanError};
use std::alloc::Global;

// A plan, and the names of its stations by position.
#[derive(Drop)]
pub struct NamedPlan<'a> {
    pub plan: Plan,
    // Beside the plan, since a name is no part of what is planned: a plan's stations and rules know of none.
    // Bytes and no `str`, as the text that they stand in.
    pub names: Vec<Option<&'a [u8]>>,
}

impl<'a> NamedPlan<'a> {
    ghost use Rattle.std.specs.Prelude.{slice_get};
    ghost use Rattle.std.specs.Option.{option_map, option_flatten};
    ghost use Rattle.plan_text.specs.Outcome.{names_of, StartedNamed, Admitted};

    // A plan for an image of so many bytes, as yet with no station.
    pub(crate) fn new(heap: Global, bytes: u32) -> Result<NamedPlan<'a>, ReadError<'a>>
        ensures { StartedNamed bytes result }
    {
        let plan = Plan::new(heap, bytes).map_err(|fault| ReadError::ImageRefused {
            bytes,
            fault,
        })?;
        Ok(NamedPlan {
            plan,
            names: Vec::new(heap),
        })
    }

    // The plan with the station that a line tells of, and its name.
    pub(crate) fn admit(self, told: StationLine<'a>) -> Result<NamedPlan<'a>, ReadError<'a>>
        ensures { Admitted self.entry told.entry result }
    {
        let NamedPlan {
            mut plan,
            mut names,
        } = self;
        match plan.add(told.station) {
            Ok(()) => {
                names.push(told.name).map_err(|_| ReadError::NoMemory)?;
                Ok(NamedPlan { plan, names })
            }
            Err(PlanError::Refused(fault)) => Err(ReadError::StationRefused {
                fault,
                before: NamedPlan { plan, names },
                refused: told,
            }),
            Err(PlanError::Memory) => Err(ReadError::NoMemory),
        }
    }

    // The name of the station at that position, if it has one.
    pub fn name(&self, position: usize) -> Option<&'a [u8]>
        ensures { option_map (λ x. x.now) result ≡ option_flatten (slice_get (names_of self.now) position) }
    {
        self.names.get(position).copied().flatten()
    }
}
