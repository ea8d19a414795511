// The words of a line.
ghost use Rattle.std.specs.Prelude.{◌≡◌, ◌≤◌, length};
ghost use Rattle.std.specs.Iterator.{YieldsFirstRef, item_count};
ghost use Rattle.text.specs.Words.{blank, words, words_left};

use crate::pieces::cut_at;

// Whether a byte parts words.
pub fn is_blank(b: u8) -> bool
    ensures { result ≡ blank b }
{
    matches!(b, b' ' | b'\t' | b'\r')
}

// The words of a line, from the first on. Not one with `Lines`: a word is sought behind blanks, and is never empty.
#[derive(Drop)]
pub struct Words<'a> {
    rest: &'a [u8],
}

impl<'a> Words<'a> {
    // All words of the line, from the first on.
    pub fn of(line: &'a [u8]) -> Words<'a>
        ensures left { words_left result ≡ words line.now }
        ensures bound { length (words_left result) ≤ length line.now }
    {
        Words { rest: line }
    }
}

impl<'a> Iterator for Words<'a> {
    type Item = &'a [u8];

    ghost next_gives = { YieldsFirstRef words_left };

    ghost remaining = { item_count words_left };

    fn next(&mut self) -> Option<&'a [u8]> {
        let start = self.rest.iter().position(|b| !is_blank(*b))?;
        let line = &self.rest[start..];
        let (word, rest) = cut_at(line, line.iter().position(|b| is_blank(*b)));
        self.rest = rest;
        Some(word)
    }
}
