// Reads text that goes by lines, as bytes and no `str`: a shop's file may be in any encoding.
//
// The lines of a text are what stands between its newlines; a newline at the very end begins no further line.
// In a line `#` begins a comment that goes to the line's end.
// The words of a line are its longest runs of bytes that are no blanks; a blank is a space, a tab or a carriage return.
// A number is one or more decimal digits, with no sign, and is at most 4,294,967,295.
#![tactic(auto)]

mod lines;
mod number;
mod pieces;
#[cfg(test)]
mod tests;
mod words;

pub use lines::{Lines, uncommented};
pub use number::decimal;
pub use words::{Words, is_blank};
