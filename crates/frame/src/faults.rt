// Why a frame is refused.
ghost use Rattle.std.specs.Prelude.{◌≡◌};
ghost use Rattle.frame.specs.Faults.{number, place};

use crate::limits::FRAME_HEADER_BYTES;

#[derive(Clone, Copy, Debug, PartialEq, Eq)]
pub enum FrameFault {
    // shorter or longer than a frame may be
    Length { bytes: usize },
    EtherType { found: u16 },
    // bit 11 of the EtherCAT header is set, or its type is not 1
    Header { found: u16 },
    // there is no datagram
    Empty,
    // the datagram at this offset passes the end of the datagrams, or of the frame
    Passes { at: usize },
    DataLength { at: usize, bytes: usize },
    // bits 11 to 14 beside the length are not zero
    Reserved { at: usize },
    // the flag of a datagram that another follows is set on the last, or clear before it
    More { at: usize },
    Unlisted { at: usize, code: u8 },
}

// A number and a place, as the rules ask. No trait for all faults: places differ (a position, an
// offset), and each crate tells its own.
impl FrameFault {
    // The rule that is broken.
    pub fn number(&self) -> u16
        ensures { result ≡ number self.now }
    {
        match *self {
            FrameFault::Length { .. } => 1,
            FrameFault::EtherType { .. } => 2,
            FrameFault::Header { .. } => 2,
            FrameFault::Empty
            | FrameFault::Passes { .. }
            | FrameFault::DataLength { .. }
            | FrameFault::Reserved { .. }
            | FrameFault::More { .. } => 3,
            FrameFault::Unlisted { .. } => 4,
        }
    }

    // The offset in the frame of what breaks it.
    pub fn place(&self) -> usize
        ensures { result ≡ place self.now }
    {
        match *self {
            FrameFault::Length { .. } => 0,
            FrameFault::EtherType { .. } => 12,
            FrameFault::Header { .. } => 14,
            FrameFault::Empty => FRAME_HEADER_BYTES,
            FrameFault::Passes { at }
            | FrameFault::DataLength { at, .. }
            | FrameFault::Reserved { at }
            | FrameFault::More { at }
            | FrameFault::Unlisted { at, .. } => at,
        }
    }
}
