// Hands out the datagrams of a frame, in place.
ghost use Rattle.std.specs.Prelude.{◌≡◌, length};

use crate::areas::Area;
use crate::datagrams::Token;
// It stands apart: what it promises names `Tokens`, and this file's imports may not lead back to it.
pub use crate::judging::read_frame;

// The datagrams of a frame, handed out one at a time.
#[derive(Drop)]
pub struct Tokens<'a> {
    // those that are left, all of which are there
    pub(crate) rest: Area<'a>,
    ghost whole: { length rest.bytes.now ≡ rest.left },
}

impl<'a> Iterator for Tokens<'a> {
    ghost use Rattle.std.specs.Iterator.{item_count};
    ghost use Rattle.frame.specs.Reading.{left, Stepped};

    type Item = Token<'a>;

    ghost next_gives = { Stepped };

    ghost remaining = { item_count left };

    fn next(&mut self) -> Option<Token<'a>> {
        let Ok((token, rest)) = self.rest.split() else {
            return None;
        };
        self.rest = rest;
        Some(token)
    }
}
