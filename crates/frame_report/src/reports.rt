// Frames in hex, line by line, each told of in one way or another.
ghost use Rattle.std.specs.Prelude.{◌≡◌, ℕ, ◌+◌, List, ◌++◌, IfOk, string_bytes, OnOk};
ghost use Rattle.frame_report.specs.Reports.{line_report, report_of};

use frame_text::{HexError, read_hex};
use std::alloc::Global;
use std::fmt;
use text::{Lines, uncommented};

// A way to tell of a frame.
pub trait FrameReport {
    // what is told of a frame of these bytes
    ghost told: { Self → List ℕ → List ℕ };

    fn tell(&self, out: &mut String, frame: &[u8]) -> fmt::Result
        ensures { OnOk result (string_bytes out.new ≡ string_bytes out.old ++ told self.now frame.now) };
}

// What is told of a line that has this number. One with no digit is passed over.
fn report_line<R: FrameReport>(
    heap: Global,
    way: &R,
    out: &mut String,
    number: usize,
    digits: &[u8],
) -> fmt::Result
    ensures { OnOk result (string_bytes out.new ≡ string_bytes out.old ++ line_report (R.FrameReport.told way.now) number digits.now) }
{
    match read_hex(heap, digits) {
        Ok(frame) => {
            if frame.is_empty() {
                return Ok(());
            }
            way.tell(out, frame.as_slice())
        }
        Err(HexError::Memory) => Err(fmt::Error),
        Err(error) => {
            writeln!(out, "line {number}: {error}")?;
            Ok(())
        }
    }
}

// What is told of a text of frames in hex, line by line; without memory for it, an error.
pub fn report<R: FrameReport>(heap: Global, way: &R, text: &[u8]) -> Result<String, fmt::Error>
    ensures { IfOk result (λ out. string_bytes out ≡ report_of (R.FrameReport.told way.now) text.now) }
{
    let mut out = String::new(heap);
    for (i, line) in Lines::of(text).enumerate() {
        report_line(heap, way, &mut out, i + 1, uncommented(line))?;
    }
    Ok(out)
}
