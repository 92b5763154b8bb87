//! A final channel of two people, in bytes: its fixed part, its outcome, and the call that concludes it.

use anyhow::{Result, anyhow};
use channel_values::{channel_name, state_digest, state_message};
use lms_signatures::Signer;
use std::alloc::{AllocError, Global};

/// The fixed part of two people: their number, their keys, a nonce, the application and the duration.
pub type Fixed = [u8; 126];

/// One asset, 0, with one item for a person, which is more than all deposits.
pub fn outcome_bytes() -> [u8; 48] {
    let mut bytes = [1; 48];
    bytes[1..5].fill(0);
    bytes[40..].fill(255);
    bytes
}

/// The final state of turn 1 with that outcome and no data.
fn state_bytes() -> [u8; 59] {
    let mut bytes = [0; 59];
    bytes[7] = 1;
    bytes[8] = 1;
    bytes[9..57].copy_from_slice(&outcome_bytes());
    bytes
}

fn signer(alloc: Global, seed: u8) -> Result<Signer> {
    Signer::make(alloc, [seed; 32], [seed; 16], 5).map_err(|_| anyhow!("no key"))
}

fn key(alloc: Global, seed: u8) -> Result<[u8; 56]> {
    let signer = signer(alloc, seed)?;
    Ok(signer.public())
}

/// A channel whose outcome is fixed, with challenges of 10.
pub fn fixed(alloc: Global) -> Result<Fixed> {
    let alice = key(alloc, 1)?;
    let bob = key(alloc, 2)?;
    let mut bytes = [0; 126];
    bytes[0] = 2;
    bytes[1..57].copy_from_slice(&alice);
    bytes[57..113].copy_from_slice(&bob);
    bytes[121] = 2;
    bytes[125] = 10;
    Ok(bytes)
}

/// A signature of a message.
fn signed(alloc: Global, seed: u8, message: &[u8]) -> Result<Vec<u8>> {
    let mut signer = signer(alloc, seed)?;
    signer
        .sign(message)
        .map_err(|_| anyhow!("nothing was signed"))
}

/// A mark on the first state: its place, and the signature after its length.
fn put_mark(out: &mut Vec<u8>, signature: &[u8]) -> Result<(), AllocError> {
    out.push(0)?;
    let len = signature.len().min(65535) as u16;
    out.extend_from_slice(&len.to_be_bytes())?;
    out.extend_from_slice(signature)?;
    Ok(())
}

fn put_signed(out: &mut Vec<u8>, seed: u8, message: &[u8]) -> Result<()> {
    let signature = signed(*out.allocator(), seed, message)?;
    Ok(put_mark(out, &signature)?)
}

/// The call's tag, the fixed part, one state, and the number of its marks.
fn put_chain(out: &mut Vec<u8>, fixed: &Fixed, state: &[u8]) -> Result<(), AllocError> {
    out.push(6)?;
    out.extend_from_slice(fixed)?;
    out.push(1)?;
    out.extend_from_slice(state)?;
    out.push(2)?;
    Ok(())
}

fn put_conclude(out: &mut Vec<u8>, fixed: &Fixed) -> Result<()> {
    let state = state_bytes();
    put_chain(out, fixed, &state)?;
    let message = state_message(&state_digest(&channel_name(fixed), &state));
    put_signed(out, 1, &message)?;
    put_signed(out, 2, &message)
}

/// The call that concludes the channel with its state, which both have signed.
pub fn conclude_bytes(alloc: Global, fixed: &Fixed) -> Result<Vec<u8>> {
    let mut out = Vec::new(alloc);
    put_conclude(&mut out, fixed)?;
    Ok(out)
}
