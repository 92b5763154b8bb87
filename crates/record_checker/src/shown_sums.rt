//! The lines of sums.

ghost use Rattle.std.specs.Prelude.{◌≡◌, ◌++◌, flat_map, IfOk, OnOk, string_bytes};
ghost use Rattle.record_checker.specs.Shown.{kind_word, sum_line};

use run_record::{Sum, SumOf};
use std::alloc::{AllocError, Global};

fn kind_word(kind: SumOf) -> &'static str
    ensures { result.now ≡ kind_word kind }
{
    match kind {
        SumOf::Deposited => "deposited",
        SumOf::Held => "held",
        SumOf::Paid => "paid",
    }
}

fn sum_line(alloc: Global, sum: &Sum) -> Result<String, AllocError>
    ensures { IfOk result (λ text. string_bytes text ≡ sum_line sum.now) }
{
    let kind = kind_word(sum.kind);
    let name = hex::encode(alloc, sum.name.as_slice())?;
    let (asset, amount) = (sum.asset, sum.amount);
    format!(in alloc; "sum {kind} {name} {asset} {amount}\n")
}

pub(crate) fn append_sums(alloc: Global, text: &mut String, sums: &[Sum]) -> Result<(), AllocError>
    ensures { OnOk result (string_bytes text.new
        ≡ string_bytes text.old ++ flat_map sum_line sums.now) }
{
    for sum in sums {
        let line = sum_line(alloc, sum)?;
        text.push_str(line.as_str())?;
    }
    Ok(())
}
