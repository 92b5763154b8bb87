//! What a node gives.

ghost use Rattle.std.specs.Prelude.{◌≡◌};
ghost use Rattle.network.specs.Ways.{quiet};
ghost use Rattle.network.specs.declared.outs.NodeFault.TheVariants.{NoMemory as NoMemoryLeft};

use call_history::{Call, NodeRefusal};
use channel_values::{Listed, Name, NoMemory};
use std::alloc::Global;
use std::error::Error;
use std::fmt;

/// Messages with the persons they are for, calls, and the used indices where a spent key was asked for a signature.
#[derive(Drop)]
pub struct Outs {
    pub sends: Listed<(Name, Listed<u8>)>,
    pub calls: Listed<Call>,
    pub spent: Option<u32>,
}

/// Nothing is given.
pub fn no_outs(alloc: Global) -> Outs
    ensures { result ≡ quiet }
{
    Outs {
        sends: Listed::make(Vec::new(alloc)),
        calls: Listed::make(Vec::new(alloc)),
        spent: None,
    }
}

/// Why a node does not do what it was told.
#[derive(Clone, Copy, Debug, PartialEq, Eq)]
pub enum NodeFault {
    Refused(NodeRefusal),
    NoMemory,
}

impl fmt::Display for NodeFault {
    fn fmt<W: fmt::Write>(&self, f: &mut fmt::Formatter<W>) -> fmt::Result {
        match self {
            NodeFault::Refused(refusal) => write!(f, "{refusal}"),
            NodeFault::NoMemory => write!(f, "out of memory"),
        }
    }
}

impl Error for NodeFault {}

impl From<NoMemory> for NodeFault {
    ghost from_gives = { λ _ e. e ≡ NoMemoryLeft };

    fn from(_: NoMemory) -> NodeFault {
        NodeFault::NoMemory
    }
}
