// Reads a whole plan. Its lines are judged in order, and the first fault ends it.
ghost use Rattle.plan_text.specs.Outcome.{read_text, Answered};

use crate::expected::Expected;
pub use crate::named::NamedPlan;
use crate::said::{Line, StationLine, read_line};
use plan::PlanFault;
use std::alloc::Global;
use text::Lines;

#[derive(Drop)]
pub enum ReadError<'a> {
    // a line, counted from 1, that cannot be read
    Unread {
        line: usize,
        expected: Expected,
    },
    ImageRefused {
        bytes: u32,
        fault: PlanFault,
    },
    // with the plan as it was before that station
    StationRefused {
        fault: PlanFault,
        before: NamedPlan<'a>,
        refused: StationLine<'a>,
    },
    // there is no station in the text
    Empty {
        fault: PlanFault,
    },
    NoMemory,
}

// The plan that a text makes, or what is wrong with it first.
pub fn read_plan(heap: Global, text: &[u8]) -> Result<NamedPlan<'_>, ReadError<'_>>
    ensures { Answered (read_text text.now) result }
{
    // none above the image line
    let mut named: Option<NamedPlan<'_>> = None;
    for (i, line) in Lines::of(text).enumerate() {
        let unread = |expected| ReadError::Unread {
            line: i + 1,
            expected,
        };
        named = match (named, read_line(line).map_err(unread)?) {
            (named, Line::Blank) => named,
            (None, Line::Image { bytes }) => Some(NamedPlan::new(heap, bytes)?),
            (Some(_), Line::Image { .. }) => return Err(unread(Expected::OneImage)),
            (None, Line::Station(_)) => return Err(unread(Expected::ImageFirst)),
            (Some(named), Line::Station(told)) => Some(named.admit(told)?),
        };
    }
    let named = named.ok_or(ReadError::Empty {
        fault: PlanFault::NoStations,
    })?;
    named
        .plan
        .check_not_empty()
        .map_err(|fault| ReadError::Empty { fault })?;
    Ok(named)
}
