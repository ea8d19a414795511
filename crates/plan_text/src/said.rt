// What one line says.
ghost use Rattle.std.specs.Prelude.{◌≡◌};
ghost use Rattle.std.specs.Option.{option_map};
ghost use Rattle.plan_text.specs.Grammar.{awaits_name};
ghost use Rattle.plan_text.specs.Said.{said_of, ended, line_of};

use crate::expected::Expected;
use crate::stages::Stage;
use plan::PlannedStation;
use text::{Words, uncommented};

// A station and the name that its line gives it.
#[derive(Clone, Copy)]
pub struct StationLine<'a> {
    pub station: PlannedStation,
    pub name: Option<&'a [u8]>,
}

#[derive(Clone, Copy)]
pub enum Line<'a> {
    // nothing, or a comment alone
    Blank,
    Image { bytes: u32 },
    Station(StationLine<'a>),
}

// What a line says that ends at this stage.
fn ended<'a>(stage: Stage, name: Option<&'a [u8]>) -> Result<Line<'a>, Expected>
    ensures { said_of result ≡ ended stage (option_map (λ x. x.now) name.entry) }
{
    match stage {
        Stage::AtLineKind => Ok(Line::Blank),
        Stage::AfterImage { bytes } => Ok(Line::Image { bytes }),
        Stage::AtField(fields) | Stage::AfterName(fields) => Ok(Line::Station(StationLine {
            station: fields.station(),
            name,
        })),
        Stage::AtImageBytes => Err(Expected::ImageBytes),
        Stage::AtFirstBit(_, _) => Err(Expected::FirstBit),
        Stage::AtBitCount(_, _, _) => Err(Expected::BitCount),
        Stage::AtMailboxBytes(_) => Err(Expected::MailboxBytes),
        Stage::AtName(_) => Err(Expected::NameWord),
    }
}

pub fn read_line(line: &[u8]) -> Result<Line<'_>, Expected>
    ensures { said_of result ≡ line_of line.now }
{
    let mut stage = Stage::AtLineKind;
    // beside the stage, which is plain data without the line's bytes, as the grammar's definition has it
    let mut name = None;
    for word in Words::of(uncommented(line)) {
        if stage.awaits_name() {
            name = Some(word);
        }
        stage = stage.after(word)?;
    }
    ended(stage, name)
}
