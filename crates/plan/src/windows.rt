// Windows: the bits of the image that a station reads or writes.
ghost use Rattle.std.specs.Prelude.{◌≡◌, not};
ghost use Rattle.units.specs.Spans.{has, within, meet};
ghost use Rattle.plan.specs.Limits.{window_in_range};
ghost use Rattle.plan.specs.Meaning.{Shared};
ghost use Rattle.plan.specs.Windows.{range_of, bits_of, common, any_leaves, meets_any, any_meet, pair_meets};

use crate::limits::MAX_WINDOW_BITS;
use units::{Countable, ImageBit, Span};

// So many bits from the first on; a window of no bits has first bit 0.
// Numbers and no option: a plan's text may say no bits from any bit on, which the rules then refuse.
// A type of its own and no span: its rules are of windows alone.
#[derive(Clone, Copy)]
pub struct Window {
    pub first: ImageBit,
    pub bits: u32,
}

// Seen from the master: a station takes its outputs from the image and puts its inputs into it.
#[derive(Clone, Copy, PartialEq, Eq)]
pub enum Direction {
    Output,
    Input,
}

#[derive(Clone, Copy)]
pub struct MappedWindow {
    pub direction: Direction,
    pub window: Window,
}

impl Window {
    pub const NONE: Window = Window {
        first: ImageBit(0),
        bits: 0,
    };

    pub(crate) fn span(&self) -> Span<ImageBit>
        ensures { range_of result ≡ bits_of self.now }
    {
        Span {
            first: self.first,
            count: self.bits,
        }
    }

    // Whether it has few enough bits and, with none, begins at 0.
    pub(crate) fn in_range(&self) -> bool
        ensures { result ≡ window_in_range self.now }
    {
        self.bits <= MAX_WINDOW_BITS && (self.bits > 0 || self.first.0 == 0)
    }

    pub(crate) fn has(&self, bit: ImageBit) -> bool
        ensures { result ≡ has (bits_of self.now) bit.0 }
    {
        self.span().has(&bit)
    }

    // Whether one of its bits is no bit of the image.
    pub fn leaves(&self, image: &Span<ImageBit>) -> bool
        ensures { result ≡ not (within (bits_of self.now) (range_of image.now)) }
    {
        !self.span().within(image)
    }

    // Whether the two share a bit.
    pub fn meets(&self, other: &Window) -> bool
        ensures { result ≡ meet (bits_of self.now) (bits_of other.now) }
    {
        self.span().meets(&other.span())
    }

    // The bits that both have.
    pub fn common(&self, other: &Window) -> Window
        ensures value { bits_of result ≡ common (bits_of self.now) (bits_of other.now) }
        ensures means { Shared (bits_of self.now) (bits_of other.now) (bits_of result) }
    {
        let first = self.first.0.max(other.first.0);
        let end = self.span().end().min(other.span().end());
        let bits = end.saturating_sub(u64::from(first)) as u32;
        Window {
            first: ImageBit(first),
            bits,
        }
    }

    // Whether it shares a bit with one of the others.
    fn meets_any(&self, others: &[MappedWindow]) -> bool
        ensures { result ≡ meets_any self.now others.now }
    {
        others.iter().any(|other| self.meets(&other.window))
    }
}

// Whether one of the windows leaves the image.
pub(crate) fn any_leaves(windows: &[MappedWindow], image: &Span<ImageBit>) -> bool
    ensures { result ≡ any_leaves (range_of image.now) windows.now }
{
    windows.iter().any(|mapped| mapped.window.leaves(image))
}

// Whether a window of the one list shares a bit with a window of the other.
pub(crate) fn any_meet(windows: &[MappedWindow], others: &[MappedWindow]) -> bool
    ensures { result ≡ any_meet windows.now others.now }
{
    windows.iter().any(|mapped| mapped.window.meets_any(others))
}

// Whether two windows of the list share a bit.
pub(crate) fn pair_meets(windows: &[MappedWindow]) -> bool
    ensures { result ≡ pair_meets windows.now }
{
    match windows {
        [] => false,
        [mapped, others @ ..] => mapped.window.meets_any(others) || pair_meets(others),
    }
}
