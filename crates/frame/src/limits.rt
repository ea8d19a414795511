// The sizes of frames and datagrams, and what stands beside a length.
pub const MIN_FRAME_BYTES: usize = 60;

pub const MAX_FRAME_BYTES: usize = 1514;
// the Ethernet header and the EtherCAT header behind it
pub const FRAME_HEADER_BYTES: usize = 16;

pub const DATAGRAM_HEADER_BYTES: usize = 10;
// a datagram's header and its working counter
pub const DATAGRAM_EXTRA_BYTES: usize = 12;

pub const MAX_DATA_BYTES: usize = 1486;
// how many values a length may have: it stands in the low 11 of 16 bits
pub(crate) const LENGTHS: u16 = 0x0800;

// beside the length in the EtherCAT header: bit 11 is zero, and the type in the top four bits is 1
pub const DATAGRAMS: u16 = 0x1000;
// beside a datagram's length, above the reserved bits: another datagram follows
pub const MORE: u16 = 0x8000;
