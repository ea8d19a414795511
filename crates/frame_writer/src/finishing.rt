// The end of a frame.
ghost use Rattle.std.specs.Prelude.{◌≡◌, ◌+◌, ◌-◌, ◌/◌, ◌<◌, ◌≤◌, List, length, MatchResult, slice_set};
ghost use Rattle.frame.specs.Datagrams.{Fields};
ghost use Rattle.frame_writer.specs.Adding.{frame_length, finish_answer};
ghost use Rattle.frame_writer.specs.Encoding.{laid_at};
ghost use Rattle.frame_writer.specs.Frames.{head_of, Written};
ghost use Rattle.frame_writer.specs.Writers.{buffer_of, Holds, holds, end_after, end_of};

use crate::adding::check_buffer;
use crate::encoding::paste_at;
use crate::faults::WriteFault;
use crate::writers::{Laid, Writer};
use frame::FrameFault;
use frame::limits::{DATAGRAMS, FRAME_HEADER_BYTES, MIN_FRAME_BYTES};

// The frame's header: to everyone, from this master, EtherCAT, and how many bytes of datagrams follow.
fn frame_header(area: usize) -> [u8; 16]
    requires { area < 2048 }
    ensures { result ≡ head_of area }
{
    let [low, high] = (area as u16 + DATAGRAMS).to_le_bytes();
    [
        0xff, 0xff, 0xff, 0xff, 0xff, 0xff, 0x02, 0x00, 0x00, 0x00, 0x00, 0x01, 0x88, 0xa4, low,
        high,
    ]
}

// Puts the header in front of the datagrams, and says of the last that none follows.
fn close(buffer: &mut [u8], last: Laid)
    requires { 1514 ≤ length buffer.old }
    ensures { buffer.new ≡ laid_at 0 (head_of (end_after (Some last) - 16)) (slice_set buffer.old (last.at + 7) (last.size / 256)) }
{
    let [_, high] = (last.size as u16).to_le_bytes();
    buffer[last.at + 7] = high;
    paste_at(buffer, 0, &frame_header(last.end() - FRAME_HEADER_BYTES));
}

// Ends a frame, with zeros up to the least length.
fn seal(buffer: &mut [u8], last: Laid) -> usize
    requires { 1514 ≤ length buffer.old }
    ensures len { result ≡ frame_length (end_after (Some last)) }
    ensures frame { (ds : List Fields) → Holds buffer.old (Some last) ds → Written buffer.old ds result buffer.new }
{
    close(buffer, last);
    let end = last.end();
    if end >= MIN_FRAME_BYTES {
        return end;
    }
    buffer[end..MIN_FRAME_BYTES].fill(0);
    MIN_FRAME_BYTES
}

impl<'a> Writer<'a> {
    // Ends the frame and says how long it is, or says why not and alters nothing.
    // A count and no slice: a result that borrowed the buffer would hide what becomes of it.
    pub fn finish(self) -> Result<usize, WriteFault>
        ensures value { result ≡ finish_answer (length (buffer_of self.entry)) (end_of self.entry) }
        ensures cases { MatchResult result (λ n. (ds : List Fields) → holds self.entry ds → Written (buffer_of self.entry) ds n self.exit.0.now) (λ _. self.exit.0.now ≡ buffer_of self.entry) }
    {
        let Writer { buffer, last } = self;
        let last = last.ok_or(FrameFault::Empty)?;
        check_buffer(buffer)?;
        Ok(seal(buffer, last))
    }
}
