//! Lists that are compared.

ghost use Rattle.std.specs.Prelude.{◌≡◌, ◌↔◌, IsTrue};
ghost use Rattle.record_checker.specs.Faults.{Differs};

use run_record::{Sum, SumOf};

fn same_kind(left: SumOf, right: SumOf) -> bool
    ensures { IsTrue result ↔ (left ≡ right) }
{
    left == right
}

fn same_sum(left: &Sum, right: &Sum) -> bool
    ensures { IsTrue result ↔ (left.now ≡ right.now) }
{
    same_kind(left.kind, right.kind)
        && left.name == right.name
        && left.asset == right.asset
        && left.amount == right.amount
}

/// The first place at which sums differ from the wanted ones.
pub(crate) fn first_difference(found: &[Sum], wanted: &[Sum]) -> Option<usize>
    ensures { Differs found.now wanted.now result }
{
    let common = found.len().min(wanted.len());
    for i in 0..common {
        if !same_sum(&found[i], &wanted[i]) {
            return Some(i);
        }
    }
    if found.len() == wanted.len() {
        None
    } else {
        Some(common)
    }
}

fn same_share(left: &(u32, u128), right: &(u32, u128)) -> bool
    ensures { IsTrue result ↔ (left.now ≡ right.now) }
{
    left.0 == right.0 && left.1 == right.1
}

/// The first place at which shares differ from the wanted ones.
fn first_other(found: &[(u32, u128)], wanted: &[(u32, u128)]) -> Option<usize>
    ensures { Differs found.now wanted.now result }
{
    let common = found.len().min(wanted.len());
    for i in 0..common {
        if !same_share(&found[i], &wanted[i]) {
            return Some(i);
        }
    }
    if found.len() == wanted.len() {
        None
    } else {
        Some(common)
    }
}

/// Whether shares are the wanted ones.
#[tactic(auto, using(crate::proofs::Faults::differs_not))]
pub(crate) fn are_same(found: &[(u32, u128)], wanted: &[(u32, u128)]) -> bool
    ensures { IsTrue result ↔ (found.now ≡ wanted.now) }
{
    match first_other(found, wanted) {
        None => true,
        Some(_) => false,
    }
}
