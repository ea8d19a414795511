// Units that are counted apart, and the one check on spans of them.
#![tactic(auto)]

ghost use Rattle.std.specs.Prelude.{◌≡◌, ℕ, ◌+◌, Decides};
ghost use Rattle.units.specs.Spans.{spanned, has, Has, within, Within, meet, Meet};

#[cfg(test)]
mod tests;

// What is counted by a number of its own. No `Into<u32>`: the laws of spans need the number as a function.
pub trait Countable {
    // which of its kind it is
    ghost count: { Self → ℕ };

    fn number(&self) -> u32
        ensures { result ≡ count self.now };
}

// A bit of the process image; bit i is bit i mod 8 of byte i div 8.
#[derive(Clone, Copy, Debug, PartialEq, Eq)]
pub struct ImageBit(pub u32);

// A byte address in a station.
#[derive(Clone, Copy, Debug, PartialEq, Eq)]
pub struct StationByte(pub u16);

// A station's place on the line, from 0.
// No conversion from an index: it is made where a plan's own bound shows that it fits.
#[derive(Clone, Copy, Debug, PartialEq, Eq)]
pub struct LinePosition(pub u16);

// Three impls: one generic unit with a marker for its kind would be no plainer.
impl Countable for ImageBit {
    ghost count = { λ unit. unit.0 };

    fn number(&self) -> u32 {
        self.0
    }
}

impl Countable for StationByte {
    ghost count = { λ unit. unit.0 };

    fn number(&self) -> u32 {
        u32::from(self.0)
    }
}

impl Countable for LinePosition {
    ghost count = { λ unit. unit.0 };

    fn number(&self) -> u32 {
        u32::from(self.0)
    }
}

// So many units in a row. An empty span has no unit, wherever it begins.
#[derive(Clone, Copy)]
pub struct Span<U> {
    pub first: U,
    pub count: u32,
}

// Each clause says `spanned U.Countable.count`: the range of a span needs the numbers of its kind of unit,
// which only the bound gives.
impl<U: Countable> Span<U> {
    // The number of the first unit behind the span.
    pub fn end(&self) -> u64
        ensures { result ≡ U.Countable.count self.now.first + self.now.count }
    {
        u64::from(self.first.number()) + u64::from(self.count)
    }

    // Whether the span has that unit.
    pub fn has(&self, unit: &U) -> bool
        ensures value { result ≡ has (spanned U.Countable.count self.now) (U.Countable.count unit.now) }
        ensures means { Decides result (Has (spanned U.Countable.count self.now) (U.Countable.count unit.now)) }
    {
        self.first.number() <= unit.number() && u64::from(unit.number()) < self.end()
    }

    // Whether every unit of the span is a unit of the other.
    pub fn within(&self, other: &Span<U>) -> bool
        ensures value { result ≡ within (spanned U.Countable.count self.now) (spanned U.Countable.count other.now) }
        ensures means { Decides result (Within (spanned U.Countable.count self.now) (spanned U.Countable.count other.now)) }
    {
        self.count == 0
            || (other.first.number() <= self.first.number() && self.end() <= other.end())
    }

    // Whether some unit is a unit of both.
    pub fn meets(&self, other: &Span<U>) -> bool
        ensures value { result ≡ meet (spanned U.Countable.count self.now) (spanned U.Countable.count other.now) }
        ensures means { Decides result (Meet (spanned U.Countable.count self.now) (spanned U.Countable.count other.now)) }
    {
        self.count > 0
            && other.count > 0
            && u64::from(self.first.number()) < other.end()
            && u64::from(other.first.number()) < self.end()
    }
}
