// The lines of a text, and a line without its comment.
ghost use Rattle.std.specs.Prelude.{◌≡◌, ◌≤◌, length};
ghost use Rattle.std.specs.Iterator.{YieldsFirstRef, item_count};
ghost use Rattle.text.specs.Lines.{uncommented, lines, lines_left};

use crate::pieces::cut_at;

// The line up to its first `#`, or all of it.
pub fn uncommented(line: &[u8]) -> &[u8]
    ensures value { result.now ≡ uncommented line.now }
{
    cut_at(line, line.iter().position(|b| *b == b'#')).0
}

// The lines of a text, without their newlines.
#[derive(Drop)]
pub struct Lines<'a> {
    rest: &'a [u8],
}

impl<'a> Lines<'a> {
    // All lines of the text, from the first on.
    pub fn of(text: &'a [u8]) -> Lines<'a>
        ensures left { lines_left result ≡ lines text.now }
        ensures bound { length (lines_left result) ≤ length text.now }
    {
        Lines { rest: text }
    }
}

impl<'a> Iterator for Lines<'a> {
    type Item = &'a [u8];

    ghost next_gives = { YieldsFirstRef lines_left };

    ghost remaining = { item_count lines_left };

    fn next(&mut self) -> Option<&'a [u8]> {
        let text = self.rest;
        if text.is_empty() {
            return None;
        }
        let (line, rest) = cut_at(text, text.iter().position(|b| *b == b'\n'));
        self.rest = rest;
        Some(line)
    }
}
