//! Why a text isn't read.

ghost use Rattle.run_text.specs.Lines.{IsAtLine};

use std::alloc::{AllocError, AllocFailed};
use std::error::Error;
use std::fmt;

/// What was wanted where a text can't be read on.
#[derive(Clone, Copy, Debug, PartialEq, Eq)]
pub enum Wanted {
    LineFeed,
    AnyLine,
    LaterLine,
    Word(&'static str),
    EntryNumber,
    Number,
    Call,
    Name,
    OkOrNo,
    RefusalOfThisNumber,
    RefusalNumber,
    FaultNumber,
    Mode,
    CloseOrExit,
    YesOrNo,
    EndOfLine,
    EndLine,
    EntryCount,
    AssetRising,
    AssetDeposited,
    AssetSum,
    Something,
    HeldSum,
    PaidSum,
    PremisesLine,
    PersonOfAsset,
    ExitOfAsset,
}

/// Of what each line with a fault has too little.
fn told(wanted: Wanted) -> &'static str {
    match wanted {
        Wanted::LineFeed => "a line feed",
        Wanted::AnyLine => {
            "an entry, or `load`, `hop`, `command`, `end`, `asset`, `held`, `paid`, `premises`, `person` or `exit`"
        }
        Wanted::LaterLine => "a line that may follow those before",
        Wanted::Word(word) => word,
        Wanted::EntryNumber => "the number of the next entry",
        Wanted::Number => "a number",
        Wanted::Call => "a call or `time`",
        Wanted::Name => "a name",
        Wanted::OkOrNo => "`ok` or `no`",
        Wanted::RefusalOfThisNumber => "the name of this refusal",
        Wanted::RefusalNumber => "the number of a refusal",
        Wanted::FaultNumber => "the number of a fault",
        Wanted::Mode => "`challenged` or `final`",
        Wanted::CloseOrExit => "`close` or `exit`",
        Wanted::YesOrNo => "`yes` or `no`",
        Wanted::EndOfLine => "the end of the line",
        Wanted::EndLine => "the line `end`",
        Wanted::EntryCount => "the count of the entries",
        Wanted::AssetRising => "an asset above the one before",
        Wanted::AssetDeposited => "a line `asset` for each asset, with what was deposited",
        Wanted::AssetSum => "as much deposited as is held and was paid",
        Wanted::Something => "an amount above 0",
        Wanted::HeldSum => "lines `held` that add up to what is held",
        Wanted::PaidSum => "lines `paid` that add up to what was paid",
        Wanted::PremisesLine => "a line `premises` of each person with a node",
        Wanted::PersonOfAsset => "the line `person` of the next asset",
        Wanted::ExitOfAsset => "the line `exit` of the next asset",
    }
}

impl fmt::Display for Wanted {
    fn fmt<W: fmt::Write>(&self, f: &mut fmt::Formatter<W>) -> fmt::Result {
        let text = told(*self);
        match self {
            Wanted::Word(_) => write!(f, "the word `{text}`"),
            _ => write!(f, "{text}"),
        }
    }
}

/// The line of a text that can't be read, counted from 1, and what was wanted there.
#[derive(Clone, Copy, Debug, PartialEq, Eq)]
pub struct LineFault {
    pub line: usize,
    pub wanted: Wanted,
}

impl fmt::Display for LineFault {
    fn fmt<W: fmt::Write>(&self, f: &mut fmt::Formatter<W>) -> fmt::Result {
        let line = self.line;
        let wanted = self.wanted;
        write!(f, "line {line}: wanted is {wanted}")
    }
}

impl Error for LineFault {}

/// Why a text wasn't read.
#[derive(Clone, Copy, Debug, PartialEq, Eq)]
pub enum Unread {
    NoMemory,
    Line(LineFault),
}

impl fmt::Display for Unread {
    fn fmt<W: fmt::Write>(&self, f: &mut fmt::Formatter<W>) -> fmt::Result {
        match self {
            Unread::NoMemory => write!(f, "out of memory"),
            Unread::Line(fault) => write!(f, "{fault}"),
        }
    }
}

impl Error for Unread {}

/// Why a line wasn't taken.
#[derive(Clone, Copy, Debug, PartialEq, Eq)]
pub enum Untaken {
    NoMemory,
    Wanted(Wanted),
}

impl From<Wanted> for Untaken {
    fn from(wanted: Wanted) -> Untaken {
        Untaken::Wanted(wanted)
    }
}

impl From<AllocError> for Untaken {
    fn from(_: AllocError) -> Untaken {
        Untaken::NoMemory
    }
}

impl<T: Drop> From<AllocFailed<T>> for Untaken {
    fn from(_: AllocFailed<T>) -> Untaken {
        Untaken::NoMemory
    }
}

impl Untaken {
    /// The same of the line of this number.
    pub(crate) fn at(self, line: usize) -> Unread
        ensures { IsAtLine line result }
    {
        match self {
            Untaken::NoMemory => Unread::NoMemory,
            Untaken::Wanted(wanted) => Unread::Line(LineFault { line, wanted }),
        }
    }
}
