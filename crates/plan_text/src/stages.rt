// How far a line has been read, word by word.
ghost use Rattle.std.specs.Prelude.{◌≡◌};
ghost use Rattle.plan_text.specs.Grammar.{begun, once, with_window, field, follow, awaits_name, told_station};

use crate::expected::Expected;
use crate::keywords::{Keyword, keyword_of};
use plan::{Direction, PlannedStation, Window};
use text::decimal;
use units::ImageBit;

// The fields of a station that its line has given so far.
#[derive(Clone, Copy)]
pub struct Fields {
    pub outputs: Option<Window>,
    pub inputs: Option<Window>,
    pub mailbox: Option<u32>,
}

// Where in a line the next word stands. Cases, and no closures for the steps: the grammar's definition goes by them.
#[derive(Clone, Copy)]
pub enum Stage {
    AtLineKind,
    AtImageBytes,
    AfterImage { bytes: u32 },
    AtField(Fields),
    AtFirstBit(Fields, Direction),
    AtBitCount(Fields, Direction, ImageBit),
    AtMailboxBytes(Fields),
    AtName(Fields),
    AfterName(Fields),
}

impl Fields {
    pub const NONE: Fields = Fields {
        outputs: None,
        inputs: None,
        mailbox: None,
    };

    // What is not given is absent.
    pub fn station(&self) -> PlannedStation
        ensures { result ≡ told_station self.now }
    {
        PlannedStation::new()
            .with_outputs(self.outputs.unwrap_or(Window::NONE))
            .with_inputs(self.inputs.unwrap_or(Window::NONE))
            .with_mailbox(self.mailbox.unwrap_or(0))
    }

    // The fields with that window given.
    fn with_window(self, direction: Direction, window: Window) -> Fields
        ensures { result ≡ with_window self direction window }
    {
        match direction {
            Direction::Output => Fields {
                outputs: Some(window),
                ..self
            },
            Direction::Input => Fields {
                inputs: Some(window),
                ..self
            },
        }
    }

    // The word that begins a field, each of which comes at most once.
    fn field(self, word: Option<Keyword>) -> Result<Stage, Expected>
        ensures { result ≡ field self word }
    {
        match word {
            Some(Keyword::Out) => once(self.outputs, Stage::AtFirstBit(self, Direction::Output)),
            Some(Keyword::In) => once(self.inputs, Stage::AtFirstBit(self, Direction::Input)),
            Some(Keyword::Mailbox) => once(self.mailbox, Stage::AtMailboxBytes(self)),
            Some(Keyword::Name) => Ok(Stage::AtName(self)),
            _ => Err(Expected::Field),
        }
    }
}

// What may stand only where nothing is given yet.
fn once<T: Drop>(given: Option<T>, next: Stage) -> Result<Stage, Expected>
    ensures { result ≡ once given next }
{
    match given {
        None => Ok(next),
        Some(_) => Err(Expected::FieldOnce),
    }
}

// The word that begins a line.
fn begun(word: Option<Keyword>) -> Result<Stage, Expected>
    ensures { result ≡ begun word }
{
    match word {
        Some(Keyword::Image) => Ok(Stage::AtImageBytes),
        Some(Keyword::Station) => Ok(Stage::AtField(Fields::NONE)),
        _ => Err(Expected::LineKind),
    }
}

impl Stage {
    // Whether the next word is a name.
    pub fn awaits_name(&self) -> bool
        ensures { result ≡ awaits_name self.now }
    {
        matches!(*self, Stage::AtName(_))
    }

    // The stage after one more word.
    pub fn after(self, word: &[u8]) -> Result<Stage, Expected>
        ensures { result ≡ follow self word.now }
    {
        match self {
            Stage::AtLineKind => begun(keyword_of(word)),
            Stage::AtImageBytes => {
                let bytes = decimal(word).ok_or(Expected::ImageBytes)?;
                Ok(Stage::AfterImage { bytes })
            }
            Stage::AtField(fields) => fields.field(keyword_of(word)),
            Stage::AtFirstBit(fields, direction) => {
                let first = decimal(word).ok_or(Expected::FirstBit)?;
                Ok(Stage::AtBitCount(fields, direction, ImageBit(first)))
            }
            Stage::AtBitCount(fields, direction, first) => {
                let bits = decimal(word).ok_or(Expected::BitCount)?;
                let window = Window { first, bits };
                Ok(Stage::AtField(fields.with_window(direction, window)))
            }
            Stage::AtMailboxBytes(fields) => {
                let bytes = decimal(word).ok_or(Expected::MailboxBytes)?;
                Ok(Stage::AtField(Fields {
                    mailbox: Some(bytes),
                    ..fields
                }))
            }
            Stage::AtName(fields) => Ok(Stage::AfterName(fields)),
            Stage::AfterImage { .. } | Stage::AfterName(_) => Err(Expected::EndOfLine),
        }
    }
}
