// A frame that is being written.
ghost use Rattle.std.specs.Prelude.{◌≡◌, ◌+◌, ◌≤◌};

use frame::limits::{DATAGRAM_EXTRA_BYTES, FRAME_HEADER_BYTES};

// A datagram in a frame: where it begins, and how many bytes of data it has.
#[derive(Clone, Copy)]
pub(crate) struct Laid {
    pub(crate) at: usize,
    pub(crate) size: usize,
    ghost low: { 16 ≤ at },
    ghost high: { at + (size + 12) ≤ 1514 },
}

impl Laid {
    ghost use Rattle.frame_writer.specs.Writers.{end_after};

    // Where the next datagram would begin.
    pub(crate) fn end(self) -> usize
        ensures { result ≡ end_after (Some self) }
    {
        self.at + (self.size + DATAGRAM_EXTRA_BYTES)
    }
}

// A frame under way over a lent buffer. Each datagram in it says that another follows, until the
// frame is finished.
// No model: it has none of its datagrams, which are the caller's, so its contracts go by the relation `holds`.
#[derive(Drop)]
pub struct Writer<'a> {
    pub(crate) buffer: &'a mut [u8],
    // the last datagram, once there is one
    pub(crate) last: Option<Laid>,
}

impl Writer<'_> {
    ghost use Rattle.frame_writer.specs.Writers.{end_of};

    // Where the next datagram would begin.
    pub(crate) fn end(&self) -> usize
        ensures value { result ≡ end_of self.now }
        ensures low { 16 ≤ result }
        ensures high { result ≤ 1514 }
    {
        match self.last {
            None => FRAME_HEADER_BYTES,
            Some(last) => last.end(),
        }
    }
}
