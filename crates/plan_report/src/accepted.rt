// What is said of a plan that is accepted.
use crate::pictures::Picture;
use crate::places::{Mapped, Place, Sited};
use crate::signs::sign_of;
use plan::Owner;
use plan_text::NamedPlan;
use std::fmt;
use units::LinePosition;

#[derive(Clone, Copy)]
pub struct Accepted<'a, 'b> {
    pub named: &'b NamedPlan<'a>,
}

// The windows of a station with their signs, and its mailbox.
#[derive(Clone, Copy)]
struct Described<'a, 'b> {
    position: LinePosition,
    sited: Sited<'a, 'b>,
}

impl fmt::Display for Described<'_, '_> {
    fn fmt<W: fmt::Write>(&self, f: &mut fmt::Formatter<W>) -> fmt::Result {
        let Sited { place, station } = self.sited;
        write!(f, "{place}:")?;
        for mapped in station.windows() {
            if mapped.window.bits > 0 {
                let window = Mapped(mapped);
                let sign = sign_of(Some(Owner {
                    position: self.position,
                    direction: mapped.direction,
                }));
                write!(f, " {window} as {sign},")?;
            }
        }
        match station.mailbox() {
            0 => f.write_str(" no mailbox"),
            bytes => write!(f, " mailbox {bytes} bytes"),
        }
    }
}

impl fmt::Display for Accepted<'_, '_> {
    fn fmt<W: fmt::Write>(&self, f: &mut fmt::Formatter<W>) -> fmt::Result {
        let plan = &self.named.plan;
        for (i, station) in plan.stations().iter().enumerate() {
            let place = Place::at(self.named, i);
            // it fits: a plan has at most 32 stations
            let described = Described {
                position: LinePosition(i as u16),
                sited: Sited { place, station },
            };
            writeln!(f, "{described}")?;
        }
        let counter = plan.expected_counter();
        let free = plan.free_bits();
        let bytes = plan.image_bytes();
        let bits = plan.image().count;
        writeln!(f, "expected working counter: {counter}")?;
        writeln!(f, "free bits: {free} of {bits}")?;
        writeln!(
            f,
            "image bytes: {bytes} (lowest bit of each byte first, `.` for a free bit)"
        )?;
        let picture = Picture { plan };
        write!(f, "{picture}")
    }
}
