// A picture of the image: who owns which bit.
use crate::signs::sign_of;
use plan::Plan;
use std::fmt;
use units::ImageBit;

const BYTES_IN_A_ROW: u32 = 8;

// A row for each eight bytes, a sign for each bit, the lowest bit of a byte first. Rows in which
// every bit is free are drawn as one line.
#[derive(Clone, Copy)]
pub struct Picture<'a> {
    pub plan: &'a Plan,
}

// The eight signs of a byte.
#[derive(Clone, Copy)]
struct ByteSigns<'a> {
    plan: &'a Plan,
    byte: u32,
}

impl fmt::Display for ByteSigns<'_> {
    fn fmt<W: fmt::Write>(&self, f: &mut fmt::Formatter<W>) -> fmt::Result {
        for bit in 0..8 {
            let place = self.byte.saturating_mul(8).saturating_add(bit);
            f.write_char(sign_of(self.plan.owner(ImageBit(place))))?;
        }
        Ok(())
    }
}

// The line of a row: the signs of its bytes.
#[derive(Clone, Copy)]
struct Row<'a> {
    plan: &'a Plan,
    first: u32,
    end: u32,
}

impl Row<'_> {
    // Whether no window has a bit of it.
    fn is_free(&self) -> bool {
        (self.first.saturating_mul(8)..self.end.saturating_mul(8)).all(|bit| self
            .plan
            .owner(ImageBit(bit))
            .is_none())
    }
}

impl fmt::Display for Row<'_> {
    fn fmt<W: fmt::Write>(&self, f: &mut fmt::Formatter<W>) -> fmt::Result {
        let first = self.first;
        let bit = first.saturating_mul(8);
        write!(f, "byte {first:4} bit {bit:4} ")?;
        for byte in first..self.end {
            let signs = ByteSigns {
                plan: self.plan,
                byte,
            };
            write!(f, " {signs}")?;
        }
        f.write_char('\n')
    }
}

// The line for bytes that no window has, if there are any.
#[derive(Clone, Copy)]
struct Free {
    first: u32,
    end: u32,
}

impl fmt::Display for Free {
    fn fmt<W: fmt::Write>(&self, f: &mut fmt::Formatter<W>) -> fmt::Result {
        let first = self.first;
        if first >= self.end {
            return Ok(());
        }
        let last = self.end - 1;
        if first == last {
            return writeln!(f, "byte {first} is free");
        }
        writeln!(f, "bytes {first} to {last} are free")
    }
}

impl fmt::Display for Picture<'_> {
    fn fmt<W: fmt::Write>(&self, f: &mut fmt::Formatter<W>) -> fmt::Result {
        let plan = self.plan;
        let bytes = plan.image_bytes();
        let mut free_from = 0;
        for first in (0..bytes).step_by(BYTES_IN_A_ROW as usize) {
            let end = (first + BYTES_IN_A_ROW).min(bytes);
            let row = Row { plan, first, end };
            if !row.is_free() {
                let free = Free {
                    first: free_from,
                    end: first,
                };
                write!(f, "{free}{row}")?;
                free_from = end;
            }
        }
        let free = Free {
            first: free_from,
            end: bytes,
        };
        write!(f, "{free}")
    }
}
