// The datagrams of a frame, a line for each, or why it is refused.
ghost use Rattle.std.specs.Prelude.{◌≡◌, ◌++◌, string_bytes};
ghost use Rattle.frame_report.specs.Dissection.{dissected};

use crate::reports::FrameReport;
use frame::read_frame;
use frame_text::{DatagramLine, RefusalLine};
use std::fmt;

#[derive(Clone, Copy)]
pub struct Dissection;

impl FrameReport for Dissection {
    ghost told = { λ _ frame. dissected frame };

    fn tell(&self, out: &mut String, frame: &[u8]) -> fmt::Result {
        match read_frame(frame) {
            Ok(tokens) => {
                for token in tokens {
                    let line = DatagramLine(token);
                    writeln!(out, "{line}")?;
                }
                Ok(())
            }
            Err(fault) => {
                let refusal = RefusalLine(fault);
                writeln!(out, "{refusal}")?;
                Ok(())
            }
        }
    }
}
