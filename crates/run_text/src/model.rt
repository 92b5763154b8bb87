//! What a printed text or a record says. Names, and lines where they are kept, are bytes of the text itself.

/// A run, as its text or its record shows it.
#[derive(Debug, Drop)]
pub struct Run<'a> {
    /// The script that the program made itself, if it did: then entries aren't told.
    pub made: Option<Made>,
    pub entries: Vec<Entry<'a>>,
    pub refused: Vec<Refused<'a>>,
    pub end: End,
    pub assets: Vec<AssetEnd>,
    pub held: Vec<Balance<'a>>,
    pub paid: Vec<Balance<'a>>,
    /// The persons with a node.
    pub persons: Vec<PersonEnd<'a>>,
}

/// A script of so many payments that the program made itself.
#[derive(Clone, Copy, Debug, PartialEq, Eq)]
pub enum Made {
    Load { seed: u64, count: u64 },
    /// Over two intermediaries: at its end all leave, or they close their channels.
    Hop { leaves: bool, count: u64 },
}

/// The line of an entry, and what it says.
#[derive(Clone, Copy, Debug)]
pub struct Entry<'a> {
    pub line: &'a [u8],
    pub number: u64,
    pub by: u64,
    pub call: Call<'a>,
    pub reply: Reply<'a>,
    /// Whom it pays, which a record alone says.
    pub payee: Option<Payee<'a>>,
}

/// Who is paid.
#[derive(Clone, Copy, Debug)]
pub enum Payee<'a> {
    Channel(&'a [u8]),
    Person(&'a [u8]),
}

/// What was entered.
#[derive(Clone, Copy, Debug)]
pub enum Call<'a> {
    Deposit {
        channel: &'a [u8],
        asset: u64,
        expected: u64,
        amount: u64,
    },
    Time(u64),
    /// A call with a chain or a next state: its turn, where there is one.
    Turn {
        call: TurnCall,
        channel: &'a [u8],
        turn: Option<u64>,
    },
    Transfer {
        channel: &'a [u8],
        asset: u64,
        index: u64,
    },
    Claim {
        guarantor: &'a [u8],
        target: &'a [u8],
        asset: u64,
        position: u64,
    },
}

/// A call that speaks of a turn.
#[derive(Clone, Copy, Debug, PartialEq, Eq)]
pub enum TurnCall {
    Challenge,
    Respond,
    Refute,
    Checkpoint,
    Conclude,
}

#[derive(Clone, Copy, Debug)]
pub enum Reply<'a> {
    Held(u64),
    Now(u64),
    Until(u64),
    Open(u64),
    Final(u64),
    Paid(u64),
    No(Said<'a>),
}

/// A refusal: its number and its name.
#[derive(Clone, Copy, Debug, PartialEq, Eq)]
pub struct Said<'a> {
    pub number: u64,
    pub name: &'a [u8],
}

/// A command that a node refused.
#[derive(Clone, Copy, Debug)]
pub struct Refused<'a> {
    pub line: &'a [u8],
    pub step: u64,
    pub who: &'a [u8],
    pub said: Said<'a>,
}

#[derive(Clone, Copy, Debug, PartialEq, Eq)]
pub struct End {
    pub entries: u64,
    pub now: u64,
}

#[derive(Clone, Copy, Debug, PartialEq, Eq)]
pub struct AssetEnd {
    pub asset: u64,
    pub deposited: u64,
    pub held: u64,
    pub paid: u64,
}

/// What a channel holds or a person was paid of an asset.
#[derive(Clone, Copy, Debug, PartialEq, Eq)]
pub struct Balance<'a> {
    pub name: &'a [u8],
    pub asset: u64,
    pub amount: u64,
}

/// Whether the premises of a person hold.
#[derive(Clone, Copy, Debug)]
pub struct Premises {
    pub unforged: bool,
    pub distinct: bool,
    pub in_time: bool,
}

/// A person with a node, and how each asset ended for it.
#[derive(Debug, Drop)]
pub struct PersonEnd<'a> {
    pub name: &'a [u8],
    /// They are told by a text alone.
    pub premises: Option<Premises>,
    /// One for each asset of the run, in the same order.
    pub assets: Vec<PersonAsset>,
}

#[derive(Clone, Copy, Debug, PartialEq, Eq)]
pub struct PersonAsset {
    pub asset: u64,
    pub paid: u64,
    pub share: u128,
    /// The share just after the person was commanded to exit, where it was.
    pub exit: Option<u128>,
}
