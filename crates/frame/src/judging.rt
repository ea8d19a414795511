// Judges a frame: first the frame itself, then its datagrams in turn.
ghost use Rattle.std.specs.Prelude.{◌≡◌};
ghost use Rattle.frame.specs.Judging.{headed, judged};
ghost use Rattle.frame.specs.Reading.{outcome};

use crate::areas::Area;
use crate::faults::FrameFault;
use crate::limits::{DATAGRAMS, FRAME_HEADER_BYTES, LENGTHS, MAX_FRAME_BYTES, MIN_FRAME_BYTES};
use crate::reading::Tokens;

const ETHERCAT: u16 = 0x88a4;

// How many bytes of datagrams there are by the frame's header, if the frame itself is sound.
fn area_bytes(bytes: &[u8]) -> Result<usize, FrameFault>
    ensures { result ≡ headed bytes.now }
{
    if !(MIN_FRAME_BYTES..=MAX_FRAME_BYTES).contains(&bytes.len()) {
        return Err(FrameFault::Length { bytes: bytes.len() });
    }
    // the EtherType alone stands highest byte first
    let found = u16::from_be_bytes([bytes[12], bytes[13]]);
    if found != ETHERCAT {
        return Err(FrameFault::EtherType { found });
    }
    let header = u16::from_le_bytes([bytes[14], bytes[15]]);
    let size = header % LENGTHS;
    if header - size != DATAGRAMS {
        return Err(FrameFault::Header { found: header });
    }
    if size == 0 {
        return Err(FrameFault::Empty);
    }
    Ok(usize::from(size))
}

// Judges a whole frame. Its datagrams are then handed out in turn.
pub fn read_frame(bytes: &[u8]) -> Result<Tokens<'_>, FrameFault>
    ensures { outcome result ≡ judged bytes.now }
{
    let promised = area_bytes(bytes)?;
    let end = (FRAME_HEADER_BYTES + promised).min(bytes.len());
    let area = Area {
        bytes: &bytes[FRAME_HEADER_BYTES..end],
        left: promised,
        at: FRAME_HEADER_BYTES,
    };
    area.check()?;
    Ok(Tokens { rest: area })
}
