// Datagrams added to a frame under way, one at a time.
ghost use Rattle.std.specs.Prelude.{◌≡◌, ℕ, ◌+◌, ◌≤◌, List, [], length, drop, MatchResult};
ghost use Rattle.frame.specs.Datagrams.{Fields, fields_of};
ghost use Rattle.frame.specs.Judging.{fault_of};
ghost use Rattle.frame_writer.specs.Adding.{add_fault, add_answer, added, in_buffer};
ghost use Rattle.frame_writer.specs.Encoding.{size_in, encoded, laid_at};
ghost use Rattle.frame_writer.specs.Writers.{buffer_of, loan_of, holds, end_of};

use crate::encoding::put;
use crate::faults::WriteFault;
use crate::writers::{Laid, Writer};
use command::Command;
use frame::limits::{DATAGRAM_EXTRA_BYTES, MAX_DATA_BYTES, MAX_FRAME_BYTES};
use frame::{Datagram, FrameFault};

// Whether a datagram may begin at that offset, or what forbids it.
pub(crate) fn check_datagram(at: usize, datagram: &Datagram<'_>) -> Result<(), FrameFault>
    requires { at ≤ 1514 }
    ensures { fault_of result ≡ add_fault at (fields_of datagram.now) }
{
    let bytes = datagram.data.len();
    if !(1..=MAX_DATA_BYTES).contains(&bytes) {
        return Err(FrameFault::DataLength { at, bytes });
    }
    if at + (bytes + DATAGRAM_EXTRA_BYTES) > MAX_FRAME_BYTES {
        return Err(FrameFault::Passes { at });
    }
    match datagram.command {
        Command::Unlisted(code) => Err(FrameFault::Unlisted { at, code }),
        _ => Ok(()),
    }
}

// Whether a buffer serves for any frame.
pub(crate) fn check_buffer(buffer: &[u8]) -> Result<(), WriteFault>
    ensures { result ≡ in_buffer (length buffer.now) tt }
{
    let bytes = buffer.len();
    if bytes < MAX_FRAME_BYTES {
        return Err(WriteFault::ShortBuffer { bytes });
    }
    Ok(())
}

impl<'a> Writer<'a> {
    // A frame with no datagram as yet, to be written over the first bytes of the buffer.
    pub fn over(buffer: &'a mut [u8]) -> Writer<'a>
        ensures held { holds result [] }
        ensures bytes { buffer_of result ≡ buffer.old }
        ensures same { loan_of result ≡ buffer.entry.ghost_name }
    {
        Writer { buffer, last: None }
    }

    // Adds a datagram, or says why not and alters nothing.
    pub fn add(&mut self, datagram: &Datagram<'_>) -> Result<(), WriteFault>
        ensures value { result ≡ add_answer (length (buffer_of self.old)) (end_of self.old) (fields_of datagram.now) }
        ensures held { (ds : List Fields) → holds self.old ds → holds self.new (added result ds (fields_of datagram.now)) }
        ensures cases { MatchResult result (λ _. (buffer_of self.new ≡ laid_at (end_of self.old) (encoded (fields_of datagram.now) 128) (buffer_of self.old)) × (end_of self.new ≡ end_of self.old + size_in (fields_of datagram.now))) (λ _. (buffer_of self.new ≡ buffer_of self.old) × (end_of self.new ≡ end_of self.old)) }
        ensures behind { drop (end_of self.new) (buffer_of self.new) ≡ drop (end_of self.new) (buffer_of self.old) }
        ensures len { length (buffer_of self.new) ≡ length (buffer_of self.old) }
        ensures same { loan_of self.new ≡ loan_of self.old }
    {
        let at = self.end();
        check_datagram(at, datagram)?;
        let buffer = &mut *self.buffer;
        check_buffer(buffer)?;
        put(buffer, at, datagram);
        let size = datagram.data.len();
        self.last = Some(Laid { at, size });
        Ok(())
    }
}
