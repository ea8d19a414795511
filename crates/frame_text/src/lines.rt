// What is said of a datagram: one line.
ghost use Rattle.std.specs.Prelude.{Some};
ghost use Rattle.frame.specs.Datagrams.{placed_of};
ghost use Rattle.frame_text.specs.Lines.{address_of, heading_for, line_of};

use crate::digits::HexBytes;
use command::{Command, CommandKind};
use frame::Token;
use std::fmt;

// The address of a command: ADP and ADO, or eight digits if it is logical.
#[derive(Clone, Copy)]
pub struct Address {
    pub command: Command,
    pub number: u32,
}

impl fmt::Display for Address {
    ghost output = { λ a. Some (address_of a.command a.number) };

    fn fmt<W: fmt::Write>(&self, f: &mut fmt::Formatter<W>) -> fmt::Result {
        let number = self.number;
        // halves by arithmetic: by way of bytes they would be no plainer
        let adp = number % 65536;
        let ado = number / 65536;
        match self.command.kind() {
            CommandKind::Logical => write!(f, "{number:08x}"),
            _ => write!(f, "{adp:04x}:{ado:04x}"),
        }
    }
}

// Where a datagram stands, and whom it addresses.
#[derive(Clone, Copy)]
struct Heading {
    at: usize,
    address: Address,
}

impl fmt::Display for Heading {
    ghost output = { λ h. Some (heading_for h.at h.address.command h.address.number) };

    fn fmt<W: fmt::Write>(&self, f: &mut fmt::Formatter<W>) -> fmt::Result {
        let at = self.at;
        let address = self.address;
        let command = address.command;
        write!(f, "at {at} {command} {address}")
    }
}

// A datagram as it stands in its frame.
#[derive(Clone, Copy)]
pub struct DatagramLine<'a>(pub Token<'a>);

impl fmt::Display for DatagramLine<'_> {
    ghost output = { λ l. Some (line_of (placed_of l.0)) };

    fn fmt<W: fmt::Write>(&self, f: &mut fmt::Formatter<W>) -> fmt::Result {
        let datagram = self.0.datagram();
        let heading = Heading {
            at: self.0.datagram_offset(),
            address: Address {
                command: datagram.command,
                number: datagram.address,
            },
        };
        let index = datagram.index;
        let irq = datagram.irq;
        let data = HexBytes(datagram.data);
        let counter = datagram.counter;
        write!(
            f,
            "{heading} index {index:02x} irq {irq:04x} data {data} counter {counter}"
        )
    }
}
