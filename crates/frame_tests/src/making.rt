// Frames for tests, made byte by byte.
use frame::read_frame;
use std::alloc::{AllocError, Global};

// So many bytes of zero behind what is there.
pub(crate) fn zeros(bytes: &mut Vec<u8>, count: usize) -> Result<(), AllocError> {
    bytes.resize(bytes.len().saturating_add(count), 0)
}

// The first 16 bytes of a frame, with these in the EtherCAT header.
pub(crate) fn head(heap: Global, low: u8, high: u8) -> Result<Vec<u8>, AllocError> {
    let mut bytes = Vec::new(heap);
    bytes.extend_from_slice(&[0xff, 0xff, 0xff, 0xff, 0xff, 0xff, 2, 0, 0, 0, 0, 1])?;
    bytes.extend_from_slice(&[0x88, 0xa4, low, high])?;
    Ok(bytes)
}

// A frame of this length whose header says `size` bytes of datagrams, and which has these.
pub(crate) fn frame(
    heap: Global,
    size: u16,
    datagrams: &[u8],
    length: usize,
) -> Result<Vec<u8>, AllocError> {
    let [low, high] = (0x1000 + size % 2048).to_le_bytes();
    let mut bytes = head(heap, low, high)?;
    bytes.extend_from_slice(datagrams)?;
    let missing = length.saturating_sub(bytes.len());
    zeros(&mut bytes, missing)?;
    Ok(bytes)
}

// A frame of this length with one datagram of that command, whose length and flags are these, over as
// many bytes of zero as the length says.
pub(crate) fn single(
    heap: Global,
    command: u8,
    size: u16,
    length: usize,
) -> Result<Vec<u8>, AllocError> {
    let data = size % 2048;
    let mut datagram = Vec::new(heap);
    datagram.extend_from_slice(&[command, 0, 0, 0, 0, 0])?;
    datagram.extend_from_slice(&size.to_le_bytes())?;
    zeros(&mut datagram, usize::from(data) + 4)?;
    frame(heap, data + 12, datagram.as_slice(), length)
}

// How many datagrams the frame has, or the number and the place of its refusal.
pub(crate) fn judged(frame: &[u8]) -> Result<usize, (u16, usize)> {
    match read_frame(frame) {
        Ok(tokens) => Ok(tokens.count()),
        Err(fault) => Err((fault.number(), fault.place())),
    }
}
