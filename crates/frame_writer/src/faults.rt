// Why a frame is not written.
ghost use Rattle.std.specs.Prelude.{◌≡◌};
ghost use Rattle.frame_writer.specs.Faults.{number, place};
ghost use Rattle.frame_writer.specs.declared.faults.WriteFault.TheVariants.{Refused};

use frame::FrameFault;

#[derive(Clone, Copy, Debug, PartialEq, Eq)]
pub enum WriteFault {
    // the frame would break a rule of frames
    Refused(FrameFault),
    // the buffer is too short for the longest frame
    ShortBuffer { bytes: usize },
}

// A number and a place, as the rules ask. No trait for all faults: places differ (a position, an
// offset), and each crate tells its own.
impl WriteFault {
    // The rule that is broken.
    pub fn number(&self) -> u16
        ensures { result ≡ number self.now }
    {
        match self {
            WriteFault::Refused(fault) => fault.number(),
            WriteFault::ShortBuffer { .. } => 10,
        }
    }

    // The offset in the frame of what breaks it; 0 where it is the buffer.
    pub fn place(&self) -> usize
        ensures { result ≡ place self.now }
    {
        match self {
            WriteFault::Refused(fault) => fault.place(),
            WriteFault::ShortBuffer { .. } => 0,
        }
    }
}

// Written out: a derive would not say which case is made.
impl From<FrameFault> for WriteFault {
    ghost from_gives = { λ fault e. e ≡ Refused fault };

    fn from(fault: FrameFault) -> WriteFault {
        WriteFault::Refused(fault)
    }
}
