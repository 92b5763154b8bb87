//! What each step asks to be done.

ghost use Rattle.std.specs.Prelude.{◌≡◌, ◌≤◌, ◌+◌, length, IfOk};
ghost use Rattle.script_steps.specs.Bounds.{Fits, persons};
ghost use Rattle.script_steps.specs.Conditions.{signer_of};
ghost use Rattle.step_meanings.specs.Meanings.{doing, meaning};

use crate::effect::Effect;
use crate::names::Names;
use crate::{calls, telling};
use call_history::Op;
use channel_values::NoMemory;
use lms_signatures::Signer;
use script_steps::Step;

/// What a step asks to be done. What the names stand for is then what they stand for after the step. A person that the
/// step declares takes the signer.
pub fn meet(known: &mut Names, step: &Step, signer: Option<Signer>) -> Result<Effect, NoMemory>
    requires fresh { signer ≡ signer_of step.now }
    requires fits { Fits step.now }
    requires few { length known.old.people + persons step.now ≤ 16 }
    ensures { IfOk result (λ e. doing known.new e ≡ meaning known.old step.now) }
{
    match step {
        Step::Deposit(keys) => Ok(calls::deposit(known, keys)),
        Step::Time { to } => Ok(Effect::Enter(Op::Time(*to))),
        Step::Person(keys) => known.person(signer.unwrap(), keys),
        Step::Channel(keys) => known.channel(keys),
        Step::Sign(keys) => known.sign(keys),
        Step::Catch(keys) => telling::catch(known, keys),
        Step::Send { to, state } => telling::send(known, to, state),
        Step::Drop { to } => Ok(telling::lose(known, to)),
        Step::Challenge(keys) => calls::challenge(known, keys),
        Step::Respond(keys) => calls::respond(known, keys),
        Step::Refute { channel, state } => calls::refute(known, channel, state),
        Step::Checkpoint { channel, chain } => calls::checkpoint(known, channel, chain.as_slice()),
        Step::Conclude { channel, chain } => calls::conclude(known, channel, chain.as_slice()),
        Step::Transfer(keys) => calls::transfer(known, keys),
        Step::Claim(keys) => calls::claim(known, keys),
        Step::Open(keys) => telling::open_channel(known, keys),
        Step::OpenOn(keys) => telling::open_on(known, keys),
        Step::OpenVirtual(keys) => telling::open_virtual(known, keys),
        Step::Pay(keys) => telling::pay(known, keys),
        Step::Close { who, channel } => telling::close(known, who.as_slice(), channel),
        Step::Release { how, who, channel } => {
            telling::release(known, *how, who.as_slice(), channel)
        }
        Step::Resend { who, channel } => telling::resend(known, who.as_slice(), channel),
        Step::Exit { who } => telling::exit(known, who.as_slice()),
        Step::Rounds { count } => Ok(Effect::Rounds(*count)),
    }
}
