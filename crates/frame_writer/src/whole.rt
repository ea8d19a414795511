// Whole frames: datagrams written as one, and a frame's datagrams written again.
ghost use Rattle.std.specs.Prelude.{◌≡◌, map, length, MatchResult};
ghost use Rattle.frame.specs.Datagrams.{fields_of};
ghost use Rattle.frame.specs.Judging.{fault_of, judged};
ghost use Rattle.frame_writer.specs.Adding.{write_fault, write_answer, rewrite_answer};
ghost use Rattle.frame_writer.specs.Frames.{Written, Rewritten};

use crate::adding::{check_buffer, check_datagram};
use crate::faults::WriteFault;
use crate::writers::Writer;
use frame::limits::{DATAGRAM_EXTRA_BYTES, FRAME_HEADER_BYTES};
use frame::{Datagram, FrameFault, read_frame};

// Whether there may be a frame of these datagrams, or what forbids it.
fn check_list(datagrams: &[Datagram<'_>]) -> Result<(), FrameFault>
    ensures { fault_of result ≡ write_fault (map fields_of datagrams.now) }
{
    if datagrams.is_empty() {
        return Err(FrameFault::Empty);
    }
    // A `for`: the offset goes on by each datagram's own length.
    let mut at = FRAME_HEADER_BYTES;
    for datagram in datagrams {
        check_datagram(at, datagram)?;
        at += datagram.data.len() + DATAGRAM_EXTRA_BYTES;
    }
    Ok(())
}

// Writes a frame of these datagrams over the first bytes of the buffer and says how long it is, or
// says why not and alters nothing. Read again, the frame gives the datagrams.
// A count and no slice: a result that borrowed the buffer would hide what becomes of it.
pub fn write_frame(buffer: &mut [u8], datagrams: &[Datagram<'_>]) -> Result<usize, WriteFault>
    ensures value { result ≡ write_answer (length buffer.old) (map fields_of datagrams.now) }
    ensures cases { MatchResult result (λ n. Written buffer.old (map fields_of datagrams.now) n buffer.new) (λ _. buffer.new ≡ buffer.old) }
{
    check_list(datagrams)?;
    check_buffer(buffer)?;
    let mut writer = Writer::over(buffer);
    for datagram in datagrams {
        writer.add(datagram)?;
    }
    writer.finish()
}

// Writes the datagrams of a frame again, as a frame over the first bytes of the buffer, and says how
// long that is, or says why not and alters nothing. Its datagrams are those of the first frame, byte for byte.
// A count and no slice: a result that borrowed the buffer would hide what becomes of it.
pub fn rewrite_frame(buffer: &mut [u8], frame: &[u8]) -> Result<usize, WriteFault>
    ensures value { result ≡ rewrite_answer (length buffer.old) (judged frame.now) }
    ensures cases { MatchResult result (λ n. Rewritten buffer.old frame.now n buffer.new) (λ _. buffer.new ≡ buffer.old) }
{
    let tokens = read_frame(frame)?;
    check_buffer(buffer)?;
    let mut writer = Writer::over(buffer);
    // A loop of its own: one over any iterator would have to be told which datagrams that gives.
    for token in tokens {
        writer.add(&token.datagram())?;
    }
    writer.finish()
}
