//! The canonical bytes of replies. When memory runs out, some of them may stay.

ghost use Rattle.std.specs.Prelude.{◌≡◌, ◌++◌, ◌∷◌, [], OnOk};
ghost use Rattle.channel_values.specs.Outcomes.{IsName};
ghost use Rattle.call_bytes.specs.Spelling as spelling;
ghost use Rattle.call_bytes.specs.Spelling.{long};
ghost use Rattle.call_bytes.specs.Limits as limits;

use crate::numbers::step_number;
use call_history::{Refusal, Reply};
use channel_values::{Name, NoMemory, SupportFault, put_name};

/// Appends a number of eight bytes.
pub fn put_u64(out: &mut Vec<u8>, n: u64) -> Result<(), NoMemory>
    ensures { OnOk result (out.new.items ≡ out.old.items ++ long n) }
{
    out.extend_from_slice(&n.to_be_bytes())?;
    Ok(())
}

/// A tag, a number and a byte.
fn put_fault(out: &mut Vec<u8>, tag: u8, place: u64, step: u8) -> Result<(), NoMemory>
    ensures { OnOk result (out.new.items ≡ out.old.items ++ (tag ∷ (long place ++ (step ∷ [])))) }
{
    out.push(tag)?;
    put_u64(out, place)?;
    out.push(step)?;
    Ok(())
}

#[tactic(auto, unfolding(crate::specs::Spelling::support))]
fn put_support(out: &mut Vec<u8>, fault: &SupportFault) -> Result<(), NoMemory>
    ensures put { OnOk result (out.new.items ≡ out.old.items ++ spelling.support fault.now) }
    ensures fits { OnOk result (limits.IsSupportFault fault.now) }
{
    match fault {
        SupportFault::Length => put_fault(out, 1, 0, 0),
        SupportFault::Turn(place) => put_fault(out, 2, *place as u64, 0),
        SupportFault::Step(place, fault) => {
            put_fault(out, 3, *place as u64, step_number(*fault))
        }
        SupportFault::Signature(who) => put_fault(out, 4, *who as u64, 0),
    }
}

fn put_tag(out: &mut Vec<u8>, tag: u8) -> Result<(), NoMemory>
    ensures { OnOk result (out.new.items ≡ out.old.items ++ (tag ∷ [])) }
{
    out.push(tag)?;
    Ok(())
}

/// Appends a tag and a number of eight bytes.
pub fn put_numbered(out: &mut Vec<u8>, tag: u8, n: u64) -> Result<(), NoMemory>
    ensures { OnOk result (out.new.items ≡ out.old.items ++ (tag ∷ long n)) }
{
    out.push(tag)?;
    put_u64(out, n)
}

/// Appends a tag and a name.
pub fn put_named(out: &mut Vec<u8>, tag: u8, name: &Name) -> Result<(), NoMemory>
    ensures put { OnOk result (out.new.items ≡ out.old.items ++ (tag ∷ name.now)) }
    ensures fits { OnOk result (IsName name.now) }
{
    out.push(tag)?;
    put_name(out, name)
}

fn put_unsupported(out: &mut Vec<u8>, fault: &SupportFault) -> Result<(), NoMemory>
    ensures put { OnOk result (out.new.items ≡ out.old.items ++ (2 ∷ spelling.support fault.now)) }
    ensures fits { OnOk result (limits.IsSupportFault fault.now) }
{
    out.push(2)?;
    put_support(out, fault)
}

fn put_bytes(out: &mut Vec<u8>, tag: u8, byte: u8) -> Result<(), NoMemory>
    ensures { OnOk result (out.new.items ≡ out.old.items ++ (tag ∷ byte ∷ [])) }
{
    out.push(tag)?;
    out.push(byte)?;
    Ok(())
}

#[tactic(auto, unfolding(crate::specs::Spelling::refusal))]
fn put_refusal(out: &mut Vec<u8>, refusal: &Refusal) -> Result<(), NoMemory>
    ensures put { OnOk result (out.new.items ≡ out.old.items ++ spelling.refusal refusal.now) }
    ensures fits { OnOk result (limits.IsRefusal refusal.now) }
{
    match refusal {
        Refusal::IsFinal => put_tag(out, 1),
        Refusal::NotSupported(fault) => put_unsupported(out, fault),
        Refusal::Stale(n) => put_numbered(out, 3, *n),
        Refusal::BadChallenger => put_tag(out, 4),
        Refusal::NoChallenge => put_tag(out, 5),
        Refusal::WrongState => put_tag(out, 6),
        Refusal::WrongTurn(n) => put_numbered(out, 7, *n),
        Refusal::BadSignature => put_tag(out, 8),
        Refusal::BadStep(fault) => put_bytes(out, 9, step_number(*fault)),
        Refusal::NotNewer(n) => put_numbered(out, 10, *n),
        Refusal::NotChallengers => put_tag(out, 11),
        Refusal::NotFinalState(n) => put_numbered(out, 12, *n as u64),
        Refusal::Zero => put_tag(out, 13),
        Refusal::Underheld(n) => put_numbered(out, 14, *n),
        Refusal::AssetFull(n) => put_numbered(out, 15, *n),
        Refusal::NotFinal(name) => put_named(out, 16, name),
        Refusal::WrongOutcome(name) => put_named(out, 17, name),
        Refusal::NoAsset => put_tag(out, 18),
        Refusal::WrongKind => put_tag(out, 19),
        Refusal::WrongTarget => put_tag(out, 20),
        Refusal::NotListed => put_tag(out, 21),
        Refusal::NoItem => put_tag(out, 22),
        Refusal::NothingDue(n) => put_numbered(out, 23, *n),
        Refusal::Backwards(n) => put_numbered(out, 24, *n),
        Refusal::TooLate => put_tag(out, 25),
    }
}

fn put_refused(out: &mut Vec<u8>, refusal: &Refusal) -> Result<(), NoMemory>
    ensures put { OnOk result (out.new.items ≡ out.old.items ++ (7 ∷ spelling.refusal refusal.now)) }
    ensures fits { OnOk result (limits.IsRefusal refusal.now) }
{
    out.push(7)?;
    put_refusal(out, refusal)
}

/// Appends the one spelling of a reply: its tag, and its number or refusal.
#[tactic(auto, unfolding(crate::specs::Spelling::reply))]
pub fn put_reply(out: &mut Vec<u8>, reply: &Reply) -> Result<(), NoMemory>
    ensures put { OnOk result (out.new.items ≡ out.old.items ++ spelling.reply reply.now) }
    ensures fits { OnOk result (limits.IsReply reply.now) }
{
    match reply {
        Reply::Held(n) => put_numbered(out, 1, *n),
        Reply::Until(n) => put_numbered(out, 2, *n),
        Reply::Opened(n) => put_numbered(out, 3, *n),
        Reply::Concluded(n) => put_numbered(out, 4, *n),
        Reply::Paid(n) => put_numbered(out, 5, *n),
        Reply::Now(n) => put_numbered(out, 6, *n),
        Reply::No(refusal) => put_refused(out, refusal),
    }
}
