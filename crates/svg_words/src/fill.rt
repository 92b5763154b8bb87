//! How the mark of a call is filled.

ghost use Rattle.std.specs.Prelude.{◌≡◌};
ghost use Rattle.svg_words.specs.Fills.{fill_of, name_of};

use run_text::Reply;

/// How a mark is filled.
#[derive(Clone, Copy, Debug, PartialEq, Eq)]
pub enum Fill {
    /// The call was accepted.
    Full,
    /// The call was refused.
    Hollow,
}

impl Fill {
    /// How the mark of a call is filled, by its reply.
    pub fn of(reply: &Reply) -> Fill
        ensures { result ≡ fill_of reply.now }
    {
        match reply {
            Reply::No(_) => Fill::Hollow,
            Reply::Held(_)
            | Reply::Now(_)
            | Reply::Until(_)
            | Reply::Open(_)
            | Reply::Final(_)
            | Reply::Paid(_) => Fill::Full,
        }
    }

    /// The class of such marks in the picture's style.
    pub fn name(self) -> &'static str
        ensures { result.now ≡ name_of self }
    {
        match self {
            Fill::Full => "full",
            Fill::Hollow => "hollow",
        }
    }
}
