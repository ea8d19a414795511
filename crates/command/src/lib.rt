// The commands of EtherCAT that this project knows, and their codes on the wire.
#![tactic(auto)]

ghost use Rattle.std.specs.Prelude.{◌≡◌, Some};
ghost use Rattle.command.specs.Codes.{code_of, command_of};
ghost use Rattle.command.specs.Kinds.{kind_of};
ghost use Rattle.command.specs.Names.{name_of};

use std::fmt;

// APxx address a station by its position, FPxx by its station address, Bxx every one;
// Lxx address bits of the process image. RD reads, WR writes, RW does both.
#[derive(Clone, Copy, Debug, PartialEq, Eq)]
pub enum Command {
    Nop,
    Aprd,
    Apwr,
    Aprw,
    Fprd,
    Fpwr,
    Fprw,
    Brd,
    Bwr,
    Lrd,
    Lwr,
    Lrw,
    // any other code
    Unlisted(u8),
}

// What a command's address means.
#[derive(Clone, Copy, Debug, PartialEq, Eq)]
pub enum CommandKind {
    // nobody is addressed
    Idle,
    // a station, and a byte in it
    Physical,
    // bytes of the process image
    Logical,
    Unlisted,
}

// The command that has this code.
impl From<u8> for Command {
    ghost from_gives = { λ code command. (command ≡ command_of code) × (code_of command ≡ code) };

    fn from(code: u8) -> Command {
        match code {
            0 => Command::Nop,
            1 => Command::Aprd,
            2 => Command::Apwr,
            3 => Command::Aprw,
            4 => Command::Fprd,
            5 => Command::Fpwr,
            6 => Command::Fprw,
            7 => Command::Brd,
            8 => Command::Bwr,
            10 => Command::Lrd,
            11 => Command::Lwr,
            12 => Command::Lrw,
            _ => Command::Unlisted(code),
        }
    }
}

// The code that stands for it on the wire.
impl From<Command> for u8 {
    ghost from_gives = { λ command code. code ≡ code_of command };

    fn from(command: Command) -> u8 {
        match command {
            Command::Nop => 0,
            Command::Aprd => 1,
            Command::Apwr => 2,
            Command::Aprw => 3,
            Command::Fprd => 4,
            Command::Fpwr => 5,
            Command::Fprw => 6,
            Command::Brd => 7,
            Command::Bwr => 8,
            Command::Lrd => 10,
            Command::Lwr => 11,
            Command::Lrw => 12,
            Command::Unlisted(code) => code,
        }
    }
}

impl Command {
    pub fn kind(self) -> CommandKind
        ensures { result ≡ kind_of self }
    {
        match self {
            Command::Nop => CommandKind::Idle,
            Command::Lrd | Command::Lwr | Command::Lrw => CommandKind::Logical,
            Command::Unlisted(_) => CommandKind::Unlisted,
            _ => CommandKind::Physical,
        }
    }

    // The name that the standard gives it.
    pub fn name(&self) -> &'static str
        ensures { result.now ≡ name_of self.now }
    {
        match *self {
            Command::Nop => "NOP",
            Command::Aprd => "APRD",
            Command::Apwr => "APWR",
            Command::Aprw => "APRW",
            Command::Fprd => "FPRD",
            Command::Fpwr => "FPWR",
            Command::Fprw => "FPRW",
            Command::Brd => "BRD",
            Command::Bwr => "BWR",
            Command::Lrd => "LRD",
            Command::Lwr => "LWR",
            Command::Lrw => "LRW",
            Command::Unlisted(_) => "unlisted",
        }
    }
}

impl fmt::Display for Command {
    ghost output = { λ c. Some (name_of c) };

    fn fmt<W: fmt::Write>(&self, f: &mut fmt::Formatter<W>) -> fmt::Result {
        f.write_str(self.name())
    }
}
