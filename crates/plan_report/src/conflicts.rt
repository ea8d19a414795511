// Which windows are in each other's way, and at which bits.
use crate::places::{Bits, Mapped, Sited};
use plan::{MappedWindow, Plan, Window};
use plan_text::NamedPlan;
use std::fmt;
use units::LinePosition;

// The first of the others that shares a bit with the window. A plan's own tests say whether, and here it is asked which.
fn first_met(window: &Window, others: &[MappedWindow]) -> Option<MappedWindow> {
    others
        .iter()
        .find(|other| window.meets(&other.window))
        .copied()
}

// The first two windows of the list that share a bit.
fn first_pair(windows: &[MappedWindow]) -> Option<(MappedWindow, MappedWindow)> {
    let [mapped, others @ ..] = windows else {
        return None;
    };
    match first_met(&mapped.window, others) {
        Some(other) => Some((*mapped, other)),
        None => first_pair(others),
    }
}

// The bits that two windows share.
#[derive(Clone, Copy)]
struct Shared(Window, Window);

impl fmt::Display for Shared {
    fn fmt<W: fmt::Write>(&self, f: &mut fmt::Formatter<W>) -> fmt::Result {
        let common = self.0.common(&self.1);
        let bits = Bits(common);
        if common.bits == 1 {
            return write!(f, "share bit {bits}");
        }
        write!(f, "share bits {bits}")
    }
}

// A window of the later station that shares bits with one of the earlier.
#[derive(Clone, Copy)]
struct Meeting<'a, 'b> {
    earlier: Sited<'a, 'b>,
    later: Sited<'a, 'b>,
}

impl fmt::Display for Meeting<'_, '_> {
    fn fmt<W: fmt::Write>(&self, f: &mut fmt::Formatter<W>) -> fmt::Result {
        let earlier = self.earlier.place;
        let later = self.later.place;
        let others = self.earlier.station.windows();
        let met = self.later.station.windows().iter().find_map(|mine| {
            first_met(&mine.window, &others).map(|theirs| (theirs, *mine))
        });
        let Some((theirs, mine)) = met else {
            return write!(f, "{earlier} and {later} share a bit");
        };
        let first = Mapped(theirs);
        let second = Mapped(mine);
        let shared = Shared(mine.window, theirs.window);
        write!(f, "{first} of {earlier} and {second} of {later} {shared}")
    }
}

// A window that leaves the image, or two of the station's own that share a bit.
#[derive(Clone, Copy)]
struct Own<'a, 'b> {
    plan: &'b Plan,
    sited: Sited<'a, 'b>,
}

impl fmt::Display for Own<'_, '_> {
    fn fmt<W: fmt::Write>(&self, f: &mut fmt::Formatter<W>) -> fmt::Result {
        let image = self.plan.image();
        let bits = image.count;
        let place = self.sited.place;
        let windows = self.sited.station.windows();
        if let Some(mapped) = windows.iter().find(|mapped| mapped.window.leaves(&image)) {
            let window = Mapped(*mapped);
            return write!(
                f,
                "{window} of {place} leave the image, which has {bits} bits"
            );
        }
        let Some((one, other)) = first_pair(&windows) else {
            return write!(f, "{place} is in its own way");
        };
        let first = Mapped(one);
        let second = Mapped(other);
        let shared = Shared(one.window, other.window);
        write!(f, "{first} and {second} of {place} {shared}")
    }
}

// A conflict of the later station with the one at that position, which is itself where that has none yet.
#[derive(Clone, Copy)]
pub(crate) struct Conflict<'a, 'b> {
    pub before: &'b NamedPlan<'a>,
    pub earlier: LinePosition,
    pub later: Sited<'a, 'b>,
}

impl fmt::Display for Conflict<'_, '_> {
    fn fmt<W: fmt::Write>(&self, f: &mut fmt::Formatter<W>) -> fmt::Result {
        let later = self.later;
        match Sited::at(self.before, usize::from(self.earlier.0)) {
            Some(earlier) => {
                let meeting = Meeting { earlier, later };
                write!(f, "{meeting}")
            }
            None => {
                let own = Own {
                    plan: &self.before.plan,
                    sited: later,
                };
                write!(f, "{own}")
            }
        }
    }
}
