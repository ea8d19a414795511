// The bytes of a datagram.
ghost use Rattle.std.specs.Prelude.{◌≡◌, ◌+◌, ◌<◌, ◌≤◌, length};
ghost use Rattle.frame.specs.Datagrams.{fields_of};
ghost use Rattle.frame_writer.specs.Encoding.{header, encoded, size_in, laid_at};

use frame::Datagram;
use frame::limits::{DATAGRAM_HEADER_BYTES, MORE};

// Puts bytes at a place of the buffer.
pub(crate) fn paste_at(buffer: &mut [u8], at: usize, bytes: &[u8])
    requires { at + length bytes.now ≤ length buffer.old }
    ensures { buffer.new ≡ laid_at at bytes.now buffer.old }
{
    buffer[at..at + bytes.len()].copy_from_slice(bytes);
}

// The ten header bytes of a datagram that another follows.
fn header_bytes(datagram: &Datagram<'_>) -> [u8; 10]
    requires { size_in (fields_of datagram.now) < 1499 }
    ensures { result ≡ header (fields_of datagram.now) 128 }
{
    let [a0, a1, a2, a3] = datagram.address.to_le_bytes();
    let [l0, l1] = (datagram.data.len() as u16 + MORE).to_le_bytes();
    let [q0, q1] = datagram.irq.to_le_bytes();
    [
        u8::from(datagram.command),
        datagram.index,
        a0,
        a1,
        a2,
        a3,
        l0,
        l1,
        q0,
        q1,
    ]
}

// Puts a datagram, which another is to follow, at a place of the buffer.
pub(crate) fn put(buffer: &mut [u8], at: usize, datagram: &Datagram<'_>)
    requires fits { at + size_in (fields_of datagram.now) ≤ length buffer.old }
    requires small { size_in (fields_of datagram.now) < 1499 }
    ensures { buffer.new ≡ laid_at at (encoded (fields_of datagram.now) 128) buffer.old }
{
    let header = header_bytes(datagram);
    let trailer = datagram.counter.to_le_bytes();
    let body = at + DATAGRAM_HEADER_BYTES;
    paste_at(buffer, at, &header);
    paste_at(buffer, body, datagram.data);
    paste_at(buffer, body + datagram.data.len(), &trailer);
}
