// A frame as the writer writes its datagrams again, in hex, or why it is refused.
ghost use Rattle.std.specs.Prelude.{Some};
ghost use Rattle.frame_report.specs.Rewriting.{write_refusal_of, rewritten};

use crate::reports::FrameReport;
use frame::limits::MAX_FRAME_BYTES;
use frame_text::RefusalLine;
use frame_text::digits::HexBytes;
use frame_writer::{WriteFault, rewrite_frame};
use std::fmt;

// Why a frame is not written.
#[derive(Clone, Copy)]
struct WriteRefusal(WriteFault);

impl fmt::Display for WriteRefusal {
    ghost output = { λ r. Some (write_refusal_of r.0) };

    fn fmt<W: fmt::Write>(&self, f: &mut fmt::Formatter<W>) -> fmt::Result {
        match self.0 {
            WriteFault::Refused(fault) => {
                let refusal = RefusalLine(fault);
                write!(f, "{refusal}")
            }
            WriteFault::ShortBuffer { bytes } => {
                let number = self.0.number();
                let place = self.0.place();
                write!(
                    f,
                    "refused {number} {place}: the buffer has {bytes} bytes; a frame may need {MAX_FRAME_BYTES}"
                )
            }
        }
    }
}

#[derive(Clone, Copy)]
pub struct Rewriting;

impl FrameReport for Rewriting {
    ghost told = { λ _ frame. rewritten frame };

    fn tell(&self, out: &mut String, frame: &[u8]) -> fmt::Result {
        let mut buffer = [0; MAX_FRAME_BYTES];
        match rewrite_frame(&mut buffer, frame) {
            Ok(bytes) => {
                let again = HexBytes(&buffer[0..bytes]);
                writeln!(out, "{again}")?;
                Ok(())
            }
            Err(fault) => {
                let refusal = WriteRefusal(fault);
                writeln!(out, "{refusal}")?;
                Ok(())
            }
        }
    }
}
