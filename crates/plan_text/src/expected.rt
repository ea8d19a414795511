// What a line that cannot be read should have had.
use thiserror::Error;

#[derive(Clone, Copy, Debug, PartialEq, Eq, Error)]
pub enum Expected {
    // a line begins with `image` or `station`
    #[error("expected `image BYTES` or `station` and its fields")]
    LineKind,
    // the image comes before the stations
    #[error("expected `image BYTES` before the first station")]
    ImageFirst,
    // and only once
    #[error("expected a station: the image stands above already")]
    OneImage,
    #[error("expected the number of bytes after `image`, 0 to 4294967295")]
    ImageBytes,
    #[error("expected the first image bit after `out` or `in`, 0 to 4294967295")]
    FirstBit,
    #[error("expected the number of bits after the first bit, 0 to 4294967295")]
    BitCount,
    #[error("expected the length in bytes after `mailbox`, 0 to 4294967295")]
    MailboxBytes,
    #[error("expected a word after `name`")]
    NameWord,
    // `out`, `in`, `mailbox` or `name`
    #[error("expected `out FIRST BITS`, `in FIRST BITS`, `mailbox LENGTH` or `name WORD`")]
    Field,
    // no field comes twice
    #[error("expected each of `out`, `in` and `mailbox` at most once")]
    FieldOnce,
    #[error("expected the end of the line")]
    EndOfLine,
}
