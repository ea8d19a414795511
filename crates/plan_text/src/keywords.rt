// The words that a line is made of, besides numbers and names.
ghost use Rattle.std.specs.Prelude.{◌≡◌};
ghost use Rattle.plan_text.specs.Keywords.{keyword_of};

#[derive(Clone, Copy)]
pub enum Keyword {
    Image,
    Station,
    Out,
    In,
    Mailbox,
    Name,
}

pub fn keyword_of(word: &[u8]) -> Option<Keyword>
    ensures { result ≡ keyword_of word.now }
{
    match word {
        b"image" => Some(Keyword::Image),
        b"station" => Some(Keyword::Station),
        b"out" => Some(Keyword::Out),
        b"in" => Some(Keyword::In),
        b"mailbox" => Some(Keyword::Mailbox),
        b"name" => Some(Keyword::Name),
        _ => None,
    }
}
