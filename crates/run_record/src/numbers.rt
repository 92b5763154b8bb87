//! The numbers by which records distinguish sums.

ghost use Rattle.std.specs.Prelude.{◌≡◌};
ghost use Rattle.run_record.specs.Numbers as numbers;

use crate::run_record::SumOf;

pub(crate) fn sum_number(kind: SumOf) -> u8
    ensures { result ≡ numbers.sum_number kind }
{
    match kind {
        SumOf::Deposited => 1,
        SumOf::Held => 2,
        SumOf::Paid => 3,
    }
}
