//! Whether two replies are one.

ghost use Rattle.std.specs.Prelude.{◌≡◌, ◌↔◌, IsTrue, IfOk};
ghost use Rattle.call_bytes.specs.Limits.{IsReply};
ghost use Rattle.call_bytes.specs.Spelling.{reply};

use crate::putting::put_reply;
use call_history::Reply;
use channel_values::NoMemory;
use std::alloc::Global;

/// The bytes of a reply.
fn bytes_of(alloc: Global, told: &Reply) -> Result<Vec<u8>, NoMemory>
    ensures spelled { IfOk result (λ bytes. bytes.items ≡ reply told.now) }
    ensures fits { IfOk result (λ bytes. IsReply told.now) }
{
    let mut bytes = Vec::new(alloc);
    put_reply(&mut bytes, told)?;
    Ok(bytes)
}

fn are_same(left: &[u8], right: &[u8]) -> bool
    ensures { IsTrue result ↔ (left.now ≡ right.now) }
{
    left == right
}

/// Whether two replies are one. They are where their bytes are.
pub fn same_reply(alloc: Global, left: &Reply, right: &Reply) -> Result<bool, NoMemory>
    ensures { IfOk result (λ b. IsTrue b ↔ (left.now ≡ right.now)) }
{
    let one = bytes_of(alloc, left)?;
    let other = bytes_of(alloc, right)?;
    Ok(are_same(&one, &other))
}
