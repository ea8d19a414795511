// Windows and stations as they are written.
use plan::{Direction, MappedWindow, PlannedStation, Window};
use plan_text::NamedPlan;
use std::fmt;

// A window by its first and last bit.
#[derive(Clone, Copy)]
pub struct Bits(pub Window);

impl fmt::Display for Bits {
    fn fmt<W: fmt::Write>(&self, f: &mut fmt::Formatter<W>) -> fmt::Result {
        let first = self.0.first.0;
        if self.0.bits <= 1 {
            return write!(f, "{first}");
        }
        let last = u64::from(first) + u64::from(self.0.bits - 1);
        write!(f, "{first}-{last}")
    }
}

// A window by its direction and its bits.
#[derive(Clone, Copy)]
pub struct Mapped(pub MappedWindow);

impl fmt::Display for Mapped {
    fn fmt<W: fmt::Write>(&self, f: &mut fmt::Formatter<W>) -> fmt::Result {
        let bits = Bits(self.0.window);
        match self.0.direction {
            Direction::Output => write!(f, "outputs {bits}"),
            Direction::Input => write!(f, "inputs {bits}"),
        }
    }
}

// A station by its position and, if it has one, its name.
#[derive(Clone, Copy)]
pub struct Place<'a> {
    pub position: usize,
    pub name: Option<&'a [u8]>,
}

impl<'a> Place<'a> {
    // A position of a plan, with the name that the plan's text gives the station there.
    pub(crate) fn at(named: &NamedPlan<'a>, position: usize) -> Place<'a> {
        Place {
            position,
            name: named.name(position),
        }
    }
}

// A name in brackets.
#[derive(Clone, Copy)]
struct Name<'a>(&'a [u8]);

impl fmt::Display for Name<'_> {
    fn fmt<W: fmt::Write>(&self, f: &mut fmt::Formatter<W>) -> fmt::Result {
        match std::str::from_utf8(self.0) {
            Ok(text) => write!(f, "({text})"),
            Err(_) => f.write_str("(its name is no UTF-8)"),
        }
    }
}

impl fmt::Display for Place<'_> {
    fn fmt<W: fmt::Write>(&self, f: &mut fmt::Formatter<W>) -> fmt::Result {
        let position = self.position;
        match self.name.map(Name) {
            Some(name) => write!(f, "station {position} {name}"),
            None => write!(f, "station {position}"),
        }
    }
}

// A planned station and its place.
#[derive(Clone, Copy)]
pub(crate) struct Sited<'a, 'b> {
    pub place: Place<'a>,
    pub station: &'b PlannedStation,
}

impl<'a, 'b> Sited<'a, 'b> {
    // The station of a plan at that position.
    pub(crate) fn at(named: &'b NamedPlan<'a>, position: usize) -> Option<Sited<'a, 'b>> {
        let station = named.plan.stations().get(position)?;
        let place = Place::at(named, position);
        Some(Sited { place, station })
    }
}
