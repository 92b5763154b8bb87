//! What the numbers of sums stand for.

ghost use Rattle.std.specs.Prelude.{◌≡◌};
ghost use Rattle.run_record.specs.Numbers as sums;

use run_record::SumOf;

pub(crate) fn sum_of(number: u8) -> Option<SumOf>
    ensures { result ≡ sums.sum_of number }
{
    match number {
        1 => Some(SumOf::Deposited),
        2 => Some(SumOf::Held),
        3 => Some(SumOf::Paid),
        _ => None,
    }
}
