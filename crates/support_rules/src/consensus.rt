//! The consensus application: an outcome changes where all have voted for it.

ghost use Rattle.std.specs.Prelude.{◌≡◌, ◌≤◌, ◌∷◌, vec_len, IfOk};
ghost use Rattle.std.specs.Option.{option_map};
ghost use Rattle.std.specs.Result.{result_err};
ghost use Rattle.channel_values.specs.Outcomes.{AreBytes};
ghost use Rattle.channel_values.specs.Spelling.{outcome};
ghost use Rattle.support_rules.specs.Ballots.{Ballot, ballot_of, data_of};
ghost use Rattle.support_rules.specs.Rules.{move_fault, consensus_fault};
ghost use Rattle.support_rules.specs.Rules as rules;

use channel_values::{NoMemory, Outcome, State, StepFault, is_outcome};
use std::alloc::Global;

/// Whether the two have one spelling.
pub fn is_same_outcome(a: &Outcome, b: &Outcome) -> bool
    ensures { result ≡ rules.is_same_outcome a.now b.now }
{
    a.bytes() == b.bytes()
}

/// The votes that are still wanted and the proposal's spelling, among `n` participants.
pub fn votes_of(n: usize, app_bytes: &[u8]) -> Option<(u8, &[u8])>
    ensures { option_map (λ x. record { votes = x.0; proposal = x.1.now }) result ≡ ballot_of n app_bytes.now }
{
    match app_bytes {
        [] => Some((0, app_bytes)),
        [votes, proposal @ ..] => {
            if *votes >= 1 && (*votes as usize) < n && is_outcome(proposal) {
                Some((*votes, proposal))
            } else {
                None
            }
        }
    }
}

/// A move from one ballot to another.
fn move_step(
    n: usize,
    before: (u8, &[u8]),
    after: (u8, &[u8]),
    from: &Outcome,
    to: &Outcome,
) -> Result<(), StepFault>
    requires { 2 ≤ n }
    ensures { result_err result ≡ move_fault n
        (record { votes = before.entry.0; proposal = before.entry.1.now })
        (record { votes = after.entry.0; proposal = after.entry.1.now }) from.now to.now }
{
    let stays = is_same_outcome(from, to);
    let becomes = to.bytes() == before.1;
    let keeps_proposal = before.1 == after.1;
    match (before.0, after.0) {
        (1, 0) if becomes => Ok(()),
        (_, 0) if stays => Ok(()),
        (_, 0) => Err(StepFault::Outcome),
        (0, votes) if votes as usize == n - 1 && stays => Ok(()),
        (0, votes) if votes as usize == n - 1 => Err(StepFault::Outcome),
        (votes, left) if left as usize + 1 != votes as usize => Err(StepFault::Votes),
        _ if !keeps_proposal => Err(StepFault::Proposal),
        _ if stays => Ok(()),
        _ => Err(StepFault::Outcome),
    }
}

pub(crate) fn consensus_step(n: usize, from: &State, to: &State) -> Result<(), StepFault>
    requires { 2 ≤ n }
    ensures { result_err result ≡ consensus_fault n from.now to.now }
{
    let Some(before) = votes_of(n, from.app_bytes()) else {
        return Err(StepFault::Data);
    };
    let Some(after) = votes_of(n, to.app_bytes()) else {
        return Err(StepFault::Data);
    };
    move_step(n, before, after, from.outcome(), to.outcome())
}

/// The data of some votes for a proposal of this spelling.
fn ballot_bytes(alloc: Global, votes: u8, spelling: &[u8]) -> Result<Vec<u8>, NoMemory>
    ensures data { IfOk result (λ v. v.items ≡ votes ∷ spelling.now) }
    ensures bytes { IfOk result (λ v. AreBytes v.items) }
{
    let mut bytes = Vec::new(alloc);
    bytes.push(votes)?;
    bytes.extend_from_slice(spelling)?;
    Ok(bytes)
}

/// The consensus data of some votes for a proposal, which fit a state. They are empty where no votes are wanted.
#[tactic(auto, using(crate::proofs::Lengths::long_outcome))]
pub fn vote_bytes(alloc: Global, votes: u8, proposal: &Outcome) -> Result<Vec<u8>, NoMemory>
    ensures data { IfOk result (λ v. v.items ≡ data_of (record { votes = votes; proposal = outcome proposal.now })) }
    ensures short { IfOk result (λ v. vec_len v ≤ 4096) }
    ensures bytes { IfOk result (λ v. AreBytes v.items) }
{
    if votes == 0 {
        return Ok(Vec::new(alloc));
    }
    ballot_bytes(alloc, votes, proposal.bytes())
}
