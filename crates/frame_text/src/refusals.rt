// Why a frame is refused, in words.
ghost use Rattle.std.specs.Prelude.{Some};
ghost use Rattle.frame_text.specs.Refusals.{words_of, refusal_of};

use frame::FrameFault;
use frame::limits::{MAX_DATA_BYTES, MAX_FRAME_BYTES, MIN_FRAME_BYTES};
use std::fmt;

// What is wrong.
#[derive(Clone, Copy)]
struct FaultWords(FrameFault);

impl fmt::Display for FaultWords {
    ghost output = { λ w. Some (words_of w.0) };

    fn fmt<W: fmt::Write>(&self, f: &mut fmt::Formatter<W>) -> fmt::Result {
        match self.0 {
            FrameFault::Length { bytes } => write!(
                f,
                "the frame has {bytes} bytes; it may have {MIN_FRAME_BYTES} to {MAX_FRAME_BYTES}"
            ),
            FrameFault::EtherType { found } => {
                write!(f, "the EtherType is {found:04x}, not 88a4")
            }
            FrameFault::Header { found } => write!(
                f,
                "the EtherCAT header is {found:04x}; bit 11 has to be 0 and the type 1"
            ),
            FrameFault::Empty => f.write_str("the frame has no datagram"),
            FrameFault::Passes { .. } => f.write_str(
                "the datagram passes the end of the datagrams or of the frame",
            ),
            FrameFault::DataLength { bytes, .. } => write!(
                f,
                "the datagram has {bytes} bytes of data; it may have 1 to {MAX_DATA_BYTES}"
            ),
            FrameFault::Reserved { .. } => f.write_str(
                "the reserved bits 11 to 14 beside the length are not 0",
            ),
            FrameFault::More { .. } => f.write_str(
                "bit 15 beside the length says wrongly whether another datagram follows",
            ),
            FrameFault::Unlisted { code, .. } => write!(f, "command {code} is not listed"),
        }
    }
}

// The number of the broken rule, the place, and what is wrong there.
#[derive(Clone, Copy)]
pub struct RefusalLine(pub FrameFault);

impl fmt::Display for RefusalLine {
    ghost output = { λ l. Some (refusal_of l.0) };

    fn fmt<W: fmt::Write>(&self, f: &mut fmt::Formatter<W>) -> fmt::Result {
        let number = self.0.number();
        let place = self.0.place();
        let words = FaultWords(self.0);
        write!(f, "refused {number} {place}: {words}")
    }
}
