// What a datagram says, and a datagram that stands in a frame.
ghost use Rattle.std.specs.Prelude.{◌≡◌, ◌+◌, ◌-◌, ◌*◌};
ghost use Rattle.frame.specs.Datagrams.{fields_of, part_in, placed_of};

use crate::limits::DATAGRAM_HEADER_BYTES;
use command::Command;

// What a datagram says, wherever it stands. The low half of a physical address is ADP, the high
// half ADO.
// No model: it is plain data whose fields callers read, and contracts see of it what `fields_of` says.
#[derive(Clone, Copy)]
pub struct Datagram<'a> {
    pub command: Command,
    pub index: u8,
    pub address: u32,
    pub irq: u16,
    pub data: &'a [u8],
    pub counter: u16,
}

// What every datagram in a frame has: its data are a part of that frame and begin at the offset.
#[derive(Clone, Copy)]
pub struct Part<'a> {
    pub index: u8,
    pub irq: u16,
    pub data: &'a [u8],
    pub counter: u16,
    pub offset: usize,
}

// A datagram in a frame.
#[derive(Clone, Copy)]
pub enum Token<'a> {
    Physical {
        command: Command,
        adp: u16,
        ado: u16,
        part: Part<'a>,
    },
    Logical {
        command: Command,
        address: u32,
        part: Part<'a>,
    },
    Idle {
        address: u32,
        part: Part<'a>,
    },
}

impl<'a> Token<'a> {
    fn command(&self) -> Command
        ensures { result ≡ (placed_of self.now).fields.command }
    {
        match *self {
            Token::Physical { command, .. } | Token::Logical { command, .. } => command,
            Token::Idle { .. } => Command::Nop,
        }
    }

    fn address(&self) -> u32
        ensures { result ≡ (placed_of self.now).fields.address }
    {
        match *self {
            // joined by arithmetic, as `Header::token` takes them apart
            Token::Physical { adp, ado, .. } => u32::from(adp) + 65536 * u32::from(ado),
            Token::Logical { address, .. } | Token::Idle { address, .. } => address,
        }
    }

    fn part(&self) -> Part<'a>
        ensures { result ≡ part_in self.now }
    {
        match *self {
            Token::Physical { part, .. } | Token::Logical { part, .. } | Token::Idle { part, .. } =>
                part,
        }
    }

    // What the datagram says.
    pub fn datagram(&self) -> Datagram<'a>
        ensures { fields_of result ≡ (placed_of self.now).fields }
    {
        let part = self.part();
        Datagram {
            command: self.command(),
            index: part.index,
            address: self.address(),
            irq: part.irq,
            data: part.data,
            counter: part.counter,
        }
    }

    // Where its data begin in the frame.
    pub fn data_offset(&self) -> usize
        ensures { result ≡ (placed_of self.now).offset }
    {
        self.part().offset
    }

    // Where the datagram itself begins in the frame.
    pub fn datagram_offset(&self) -> usize
        ensures { result ≡ (placed_of self.now).offset - 10 }
    {
        self.data_offset().saturating_sub(DATAGRAM_HEADER_BYTES)
    }
}
