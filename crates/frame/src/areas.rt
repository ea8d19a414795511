// An area of datagrams, judged and taken apart one by one.
ghost use Rattle.std.specs.Prelude.{◌≡◌, ◌+◌, ◌^◌, ◌<◌, ◌≤◌, length, IfOk};
ghost use Rattle.frame.specs.Judging.{front_fault, fault_of, judge_area, size_fault};

use crate::datagrams::Token;
use crate::faults::FrameFault;
use crate::headers::{Header, split_header};
use crate::limits::{DATAGRAM_EXTRA_BYTES, MAX_DATA_BYTES};

// The datagrams of a frame from some offset on.
#[derive(Clone, Copy)]
pub(crate) struct Area<'a> {
    // what is there of them
    pub(crate) bytes: &'a [u8],
    // how many bytes there are by the frame's header
    pub(crate) left: usize,
    // where they begin in the frame
    pub(crate) at: usize,
    ghost within: { length bytes.now ≤ left },
    ghost fits: { at + left < 2 ^ 64 },
}

impl<'a> Area<'a> {
    ghost use Rattle.frame.specs.Areas.{SplitsInto};

    // Judges the length, the flags and the end of the datagram at the front.
    fn check_size(&self, header: Header) -> Result<(), FrameFault>
        ensures { fault_of result ≡ size_fault header.size (length self.now.bytes.now) self.now.left self.now.at }
    {
        let at = self.at;
        let bytes = header.data_bytes();
        if !(1..=MAX_DATA_BYTES).contains(&bytes) {
            return Err(FrameFault::DataLength { at, bytes });
        }
        if header.reserved() != 0 {
            return Err(FrameFault::Reserved { at });
        }
        if self.bytes.len() < bytes + DATAGRAM_EXTRA_BYTES {
            return Err(FrameFault::Passes { at });
        }
        if header.more() != (bytes + DATAGRAM_EXTRA_BYTES < self.left) {
            return Err(FrameFault::More { at });
        }
        Ok(())
    }

    // The datagram at the front and the area behind it, or what is wrong with that datagram.
    pub(crate) fn split(&self) -> Result<(Token<'a>, Area<'a>), FrameFault>
        ensures fault { fault_of result ≡ front_fault self.now.bytes.now self.now.left self.now.at }
        ensures parts { IfOk result (λ t. SplitsInto self.now t.0 t.1) }
    {
        let at = self.at;
        let (header, body) = split_header(self.bytes).ok_or(FrameFault::Passes { at })?;
        self.check_size(header)?;
        let bytes = header.data_bytes();
        let counter = u16::from_le_bytes([body[bytes], body[bytes + 1]]);
        let token = header.token(&body[..bytes], counter, at)?;
        let size = bytes + DATAGRAM_EXTRA_BYTES;
        let rest = Area {
            bytes: &self.bytes[size..],
            left: self.left - size,
            at: at + size,
        };
        Ok((token, rest))
    }

    // Judges the datagrams in turn.
    pub(crate) fn check(&self) -> Result<(), FrameFault>
        ensures { fault_of result ≡ fault_of (judge_area self.now.bytes.now self.now.left self.now.at) }
    {
        let mut area = *self;
        loop {
            let (_, rest) = area.split()?;
            if rest.left == 0 {
                return Ok(());
            }
            area = rest;
        }
    }
}
