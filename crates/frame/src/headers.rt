// The ten header bytes of a datagram.
ghost use Rattle.std.specs.Prelude.{◌≡◌, ◌+◌, ◌^◌, ◌<◌, length, IfOk, MatchOption};
ghost use Rattle.frame.specs.Datagrams.{data_bits, more_bit, placed_of, reserved_bits};
ghost use Rattle.frame.specs.Judging.{fault_of, command_fault};
ghost use Rattle.frame.specs.Headers.{SplitOff, fields_with};

use crate::datagrams::{Part, Token};
use crate::faults::FrameFault;
use crate::limits::{DATAGRAM_HEADER_BYTES, LENGTHS, MORE};
use command::{Command, CommandKind};

// What the ten header bytes say.
#[derive(Clone, Copy)]
pub(crate) struct Header {
    code: u8,
    index: u8,
    address: u32,
    // the length of the data, and the flags
    size: u16,
    irq: u16,
}

// The header, and what follows it.
pub(crate) fn split_header(area: &[u8]) -> Option<(Header, &[u8])>
    ensures { MatchOption result (length area.now < 10) (λ h. SplitOff area.now h.0 h.1.now) }
{
    let [code, index, a0, a1, a2, a3, l0, l1, q0, q1, rest @ ..] = area else {
        return None;
    };
    let header = Header {
        code: *code,
        index: *index,
        address: u32::from_le_bytes([*a0, *a1, *a2, *a3]),
        size: u16::from_le_bytes([*l0, *l1]),
        irq: u16::from_le_bytes([*q0, *q1]),
    };
    Some((header, rest))
}

impl Header {
    // How many bytes of data the datagram has.
    pub(crate) fn data_bytes(self) -> usize
        ensures { result ≡ data_bits self.size }
    {
        usize::from(self.size % LENGTHS)
    }

    // The bits between the length and the flag.
    pub(crate) fn reserved(self) -> u16
        ensures { result ≡ reserved_bits self.size }
    {
        self.size % MORE / LENGTHS
    }

    // Whether another datagram follows.
    pub(crate) fn more(self) -> bool
        ensures { result ≡ more_bit self.size }
    {
        self.size >= MORE
    }

    // The datagram with this header, which begins at that offset.
    pub(crate) fn token<'a>(
        self,
        data: &'a [u8],
        counter: u16,
        at: usize,
    ) -> Result<Token<'a>, FrameFault>
        requires { at + 10 < 2 ^ 64 }
        ensures value { fault_of result ≡ command_fault self.code at }
        ensures token { IfOk result (λ t. placed_of t ≡ record { offset = at + 10; fields = fields_with self «data».now counter }) }
    {
        let Header {
            code,
            index,
            address,
            irq,
            ..
        } = self;
        let command = Command::from(code);
        let offset = at + DATAGRAM_HEADER_BYTES;
        let part = Part {
            index,
            irq,
            data,
            counter,
            offset,
        };
        match command.kind() {
            CommandKind::Unlisted => Err(FrameFault::Unlisted { at, code }),
            CommandKind::Idle => Ok(Token::Idle { address, part }),
            CommandKind::Logical => Ok(Token::Logical {
                command,
                address,
                part,
            }),
            // Halves by arithmetic: by way of bytes they would be no plainer.
            CommandKind::Physical => Ok(Token::Physical {
                command,
                adp: (address % 65536) as u16,
                ado: (address / 65536) as u16,
                part,
            }),
        }
    }
}
