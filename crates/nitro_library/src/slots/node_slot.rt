//! A slot for a node.
ghost use Rattle.std.specs.Prelude.{◌≡◌, true, Option, None, Some, is_some};
ghost use Rattle.nitro_library.specs.declared.node.NodeCore.{NodeCore as ANode};
ghost use Rattle.nitro_library.specs.Slots.{node_owns, node_coded};

use crate::loose::Loose;
use crate::node::NodeCore;
use crate::slots::sendable;
use std::alloc::Global;
use std::marker::Model;
use std::ptr;

/// Nothing, or a pointer to a node.
#[repr(C)]
#[derive(Drop)]
pub struct NodeSlot {
    at: *mut u8,
    alloc: Global,
    pub ghost core: { Option ANode } by { node_coded },
}

impl Model for NodeSlot {
    ghost also_owns = { λ s. node_owns s.alloc s.at s.core };
}

// The proof is in proofs/slots/node_slot/NodeSlot/TheSendSync.
unsafe impl Send for NodeSlot {}

impl NodeSlot {
    pub(crate) fn empty(alloc: Global) -> NodeSlot
        ensures { result.core ≡ None }
    {
        NodeSlot {
            at: ptr::null_mut(),
            alloc,
        }
    }

    fn of_loose(loose: Loose<NodeCore, Global>) -> NodeSlot
        ensures { result.core ≡ Some loose.value }
    {
        let Loose { ptr, alloc } = loose;
        NodeSlot {
            at: ptr as *mut u8,
            alloc,
        }
    }

    fn into_loose(self) -> Loose<NodeCore, Global>
        requires { is_some self.core ≡ true }
        ensures { self.core ≡ Some result.value }
    {
        let NodeSlot { at, alloc } = self;
        Loose {
            ptr: at as *mut NodeCore,
            alloc,
        }
    }

    /// A slot with a core, which may go from one thread to another.
    pub(crate) fn of(core: Box<NodeCore>) -> NodeSlot
        ensures { result.core ≡ Some core.value }
    {
        sendable(NodeSlot::of_loose(Loose::of(core)))
    }

    /// The core of a slot that has one.
    pub(crate) fn into_core(self) -> Box<NodeCore>
        requires { is_some self.core ≡ true }
        ensures { self.core ≡ Some result.value }
    {
        self.into_loose().into_box()
    }
}
