//! Small crews.

ghost use Rattle.std.specs.Prelude.{◌≡◌, IfSome, IfOk, All, [], ◌∷◌};
ghost use Rattle.network_rounds.specs.Members.{HasFollowed};

use crate::actors::{counting_actor, two_callers};
use lms_signatures::Signer;
use network::{Member, Party};
use network_rounds::{Cast, Crew};
use std::alloc::{AllocFailed, Global};

fn one<T: Drop>(alloc: Global, item: T) -> Result<Vec<T>, AllocFailed<T>>
    ensures { IfOk result (λ v. v.items ≡ item ∷ []) }
{
    let mut list = Vec::new(alloc);
    list.push(item)?;
    Ok(list)
}

/// A new node without watchers.
fn member<P: Party>(alloc: Global) -> Option<Member<P>>
    ensures { IfSome result (λ m. HasFollowed P.ways [] m) }
{
    let signer = Signer::make(alloc, [1; 32], [1; 16], 5).ok()?;
    let Ok(node) = P::make(alloc, 1, signer) else {
        return None;
    };
    let watchers = Vec::new(alloc);
    Some(Member { node, watchers })
}

fn crew<P: Party>(alloc: Global, nodes: Vec<Member<P>>, cast: Vec<Cast>) -> Crew<P>
    ensures { result.nodes.items ≡ nodes.items }
{
    let post = Vec::new(alloc);
    Crew { nodes, cast, post }
}

/// A node beside an actor that counts.
pub(crate) fn mixed<P: Party>(alloc: Global) -> Option<Crew<P>>
    ensures { IfSome result (λ c. All (HasFollowed P.ways []) c.nodes.items) }
{
    let cast = one(alloc, counting_actor(alloc, 101)?).ok()?;
    let member = member(alloc)?;
    let Ok(nodes) = one(alloc, member) else {
        return None;
    };
    Some(crew(alloc, nodes, cast))
}

/// Actors with these numbers that count.
pub(crate) fn counting<P: Party>(alloc: Global, numbers: &[u32]) -> Option<Crew<P>>
    ensures { IfSome result (λ c. All (HasFollowed P.ways []) c.nodes.items) }
{
    let mut cast = Vec::new(alloc);
    for number in numbers {
        let actor = counting_actor(alloc, *number)?;
        cast.push(actor).ok()?;
    }
    Some(crew(alloc, Vec::new(alloc), cast))
}

/// Two actors that look for each other's flags.
pub(crate) fn calling<P: Party>(alloc: Global) -> Option<Crew<P>>
    ensures { IfSome result (λ c. All (HasFollowed P.ways []) c.nodes.items) }
{
    let cast = two_callers(alloc)?;
    Some(crew(alloc, Vec::new(alloc), cast))
}
