//! Measures the signatures. Keys have the height 10, and those of `key15` the height 15.

ghost use Rattle.lms_signatures.specs.Signing.{IsHeight};

use crate::print_time;
use anyhow::{Result, anyhow, bail};
use lms_signatures::ots::chain_step;
use lms_signatures::{Signer, verifies};
use std::time::Instant;

/// A signer with 2^h indices, as it is measured.
fn signer_of(rt: &HostRuntime, h: u8) -> Result<Signer>
    requires { IsHeight h }
{
    Signer::make(rt.alloc(), [3; 32], [4; 16], h).map_err(|_| anyhow!("no memory was left"))
}

/// The next signature of a message.
fn signed(signer: &mut Signer) -> Result<Vec<u8>> {
    signer
        .sign(b"message")
        .map_err(|_| anyhow!("nothing was signed"))
}

/// Does the work so many times, or gives `false` where there is no such work.
pub(crate) fn measure(rt: &HostRuntime, work: &str, count: u32) -> Result<bool> {
    match work {
        "step" => step(rt, count)?,
        "key" => key(rt, 10, count)?,
        "key15" => key(rt, 15, count)?,
        "sign" => sign(rt, count)?,
        "verify" => verify(rt, count)?,
        _ => return Ok(false),
    }
    Ok(true)
}

/// Steps of a chain, each of which hashes one block.
fn step(rt: &HostRuntime, count: u32) -> Result<()> {
    let start = Instant::now(rt)?;
    let mut string = [7; 32];
    for _ in 0..count {
        string = chain_step(&[1; 16], 5, 7, 3, &string);
    }
    print_time(rt, &start)
}

/// Keys with 2^h indices.
fn key(rt: &HostRuntime, h: u8, count: u32) -> Result<()>
    requires { IsHeight h }
{
    let start = Instant::now(rt)?;
    for _ in 0..count {
        signer_of(rt, h)?;
    }
    print_time(rt, &start)
}

/// Signatures of one key.
fn sign(rt: &HostRuntime, count: u32) -> Result<()> {
    let mut signer = signer_of(rt, 10)?;
    let start = Instant::now(rt)?;
    for _ in 0..count {
        signed(&mut signer)?;
    }
    print_time(rt, &start)
}

/// Verifications of one signature.
fn verify(rt: &HostRuntime, count: u32) -> Result<()> {
    let mut signer = signer_of(rt, 10)?;
    let key = signer.public();
    let signature = signed(&mut signer)?;
    let start = Instant::now(rt)?;
    for _ in 0..count {
        if !verifies(&key, b"message", &signature) {
            bail!("a signature was refused");
        }
    }
    print_time(rt, &start)
}
