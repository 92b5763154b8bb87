//! A slot for a ledger.
ghost use Rattle.std.specs.Prelude.{◌≡◌, true, Option, None, Some, is_some};
ghost use Rattle.nitro_library.specs.declared.ledger.LedgerCore.{LedgerCore as ALedger};
ghost use Rattle.nitro_library.specs.Slots.{ledger_owns, ledger_coded};

use crate::ledger::LedgerCore;
use crate::loose::Loose;
use crate::slots::sendable;
use std::alloc::Global;
use std::marker::Model;
use std::ptr;

/// Nothing, or a pointer to a ledger.
#[repr(C)]
#[derive(Drop)]
pub struct LedgerSlot {
    at: *mut u8,
    alloc: Global,
    pub ghost core: { Option ALedger } by { ledger_coded },
}

impl Model for LedgerSlot {
    ghost also_owns = { λ s. ledger_owns s.alloc s.at s.core };
}

// The proof is in proofs/slots/ledger_slot/LedgerSlot/TheSendSync.
unsafe impl Send for LedgerSlot {}

impl LedgerSlot {
    pub(crate) fn empty(alloc: Global) -> LedgerSlot
        ensures { result.core ≡ None }
    {
        LedgerSlot {
            at: ptr::null_mut(),
            alloc,
        }
    }

    fn of_loose(loose: Loose<LedgerCore, Global>) -> LedgerSlot
        ensures { result.core ≡ Some loose.value }
    {
        let Loose { ptr, alloc } = loose;
        LedgerSlot {
            at: ptr as *mut u8,
            alloc,
        }
    }

    fn into_loose(self) -> Loose<LedgerCore, Global>
        requires { is_some self.core ≡ true }
        ensures { self.core ≡ Some result.value }
    {
        let LedgerSlot { at, alloc } = self;
        Loose {
            ptr: at as *mut LedgerCore,
            alloc,
        }
    }

    /// A slot with a core, which may go from one thread to another.
    pub(crate) fn of(core: Box<LedgerCore>) -> LedgerSlot
        ensures { result.core ≡ Some core.value }
    {
        sendable(LedgerSlot::of_loose(Loose::of(core)))
    }

    /// The core of a slot that has one.
    pub(crate) fn into_core(self) -> Box<LedgerCore>
        requires { is_some self.core ≡ true }
        ensures { self.core ≡ Some result.value }
    {
        self.into_loose().into_box()
    }
}
