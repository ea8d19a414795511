// Why a plan is refused, in words that help to mend it.
use crate::conflicts::Conflict;
use crate::places::{Place, Sited};
use plan::limits::{
    MAX_IMAGE_BYTES, MAX_MAILBOX_BYTES, MAX_STATIONS, MAX_WINDOW_BITS, MIN_IMAGE_BYTES,
    MIN_MAILBOX_BYTES,
};
use plan::{PlanFault, StationField, Window};
use plan_text::{NamedPlan, ReadError, StationLine};
use std::fmt;

#[derive(Clone, Copy)]
pub struct Rejected<'a, 'b> {
    pub error: &'b ReadError<'a>,
}

// The number of the broken rule, and the place.
#[derive(Clone, Copy)]
struct Rule(PlanFault);

impl fmt::Display for Rule {
    fn fmt<W: fmt::Write>(&self, f: &mut fmt::Formatter<W>) -> fmt::Result {
        let number = self.0.number();
        let place = self.0.place();
        write!(f, "refused {number} {place}")
    }
}

// A window out of range, with what it is called.
#[derive(Clone, Copy)]
struct BadWindow<'a>(&'a str, Window);

impl fmt::Display for BadWindow<'_> {
    fn fmt<W: fmt::Write>(&self, f: &mut fmt::Formatter<W>) -> fmt::Result {
        let words = self.0;
        let first = self.1.first.0;
        let bits = self.1.bits;
        if bits == 0 {
            return write!(
                f,
                "{words} have no bits, and then the first bit is 0, not {first}"
            );
        }
        write!(
            f,
            "{words} have {bits} bits; a window has at most {MAX_WINDOW_BITS}"
        )
    }
}

// A station with a field out of range.
#[derive(Clone, Copy)]
struct BadField<'a, 'b> {
    sited: Sited<'a, 'b>,
    field: StationField,
}

impl fmt::Display for BadField<'_, '_> {
    fn fmt<W: fmt::Write>(&self, f: &mut fmt::Formatter<W>) -> fmt::Result {
        let Sited { place, station } = self.sited;
        let window = match self.field {
            StationField::Outputs => BadWindow("its outputs", station.outputs()),
            StationField::Inputs => BadWindow("its inputs", station.inputs()),
            StationField::Mailbox => {
                let bytes = station.mailbox();
                return write!(
                    f,
                    "{place}: its mailbox has {bytes} bytes; it may have {MIN_MAILBOX_BYTES} to {MAX_MAILBOX_BYTES}, or 0 for none"
                );
            }
        };
        write!(f, "{place}: {window}")
    }
}

// What is wrong with a station behind a plan.
#[derive(Clone, Copy)]
struct BadStation<'a, 'b> {
    fault: PlanFault,
    before: &'b NamedPlan<'a>,
    refused: &'b StationLine<'a>,
}

impl fmt::Display for BadStation<'_, '_> {
    fn fmt<W: fmt::Write>(&self, f: &mut fmt::Formatter<W>) -> fmt::Result {
        let place = Place {
            position: usize::from(self.fault.place()),
            name: self.refused.name,
        };
        let sited = Sited {
            place,
            station: &self.refused.station,
        };
        match self.fault {
            PlanFault::TooManyStations { .. } => write!(
                f,
                "{place} is one too many; a plan has at most {MAX_STATIONS}"
            ),
            PlanFault::FieldOutOfRange { field, .. } => {
                let bad = BadField { sited, field };
                write!(f, "{bad}")
            }
            PlanFault::WindowConflict { earlier, .. } => {
                let conflict = Conflict {
                    before: self.before,
                    earlier,
                    later: sited,
                };
                write!(f, "{conflict}")
            }
            PlanFault::ImageLength => f.write_str("the image"),
            PlanFault::NoStations => f.write_str("there is no station"),
        }
    }
}

impl fmt::Display for Rejected<'_, '_> {
    fn fmt<W: fmt::Write>(&self, f: &mut fmt::Formatter<W>) -> fmt::Result {
        match self.error {
            ReadError::Unread { line, expected } => writeln!(f, "line {line}: {expected}"),
            ReadError::ImageRefused { bytes, fault } => {
                let rule = Rule(*fault);
                writeln!(
                    f,
                    "{rule}: the image has {bytes} bytes; it may have {MIN_IMAGE_BYTES} to {MAX_IMAGE_BYTES}"
                )
            }
            ReadError::StationRefused {
                fault,
                before,
                refused,
            } => {
                let rule = Rule(*fault);
                let bad = BadStation {
                    fault: *fault,
                    before,
                    refused,
                };
                writeln!(f, "{rule}: {bad}")
            }
            ReadError::Empty { fault } => {
                let rule = Rule(*fault);
                writeln!(
                    f,
                    "{rule}: there is no station; a plan has 1 to {MAX_STATIONS}"
                )
            }
            ReadError::NoMemory => f.write_str("there was not enough memory\n"),
        }
    }
}
