//! A signer of height 5, which has 32 indices.

use lms_signatures::{LmsFault, SignFault, Signer, read_key, read_signature, verifies};
use std::alloc::Global;
use std::process::Abort;
use std::test::Fail;

fn made(alloc: Global) -> Result<Signer, Fail> {
    Ok(Signer::make(alloc, [3; 32], [4; 16], 5)?)
}

/// How many indices were used, how long the next signature is, and whether it verifies this number and another message.
fn signs(signer: &mut Signer, number: u32) -> Result<(u32, usize, bool, bool), Fail> {
    let used = signer.used();
    let key = signer.public();
    let message = number.to_be_bytes();
    let signature = signer.sign(&message)?;
    let verified = verifies(&key, &message, &signature);
    Ok((
        used,
        signature.len(),
        verified,
        verifies(&key, b"other", &signature),
    ))
}

/// How many have signed where the key is spent, by the fault and by the signer.
fn spent(signer: &mut Signer) -> Option<(u32, u32)> {
    match signer.sign(b"one more") {
        Err(SignFault::KeySpent(used)) => Some((used, signer.used())),
        _ => None,
    }
}

fn all_sign(rt: &impl Abort, signer: &mut Signer) -> Result<(), Fail> {
    for used in 0..32u32 {
        assert_eq!(rt; signs(signer, used)?, (used, 2348, true, false));
    }
    Ok(())
}

#[test]
fn each_index_signs_once(rt: HostRuntime) -> Result<(), Fail> {
    let mut signer = made(rt.alloc())?;
    all_sign(&rt, &mut signer)?;
    assert_eq!(rt; spent(&mut signer), Some((32, 32)));
    Ok(())
}

/// Why the bytes aren't read as a signature, and whether they verify the message.
fn refused(key: &[u8], message: &[u8], bytes: &[u8]) -> (Option<LmsFault>, bool) {
    let fault = match read_key(key) {
        Err(_) => None,
        Ok(key) => read_signature(&key, bytes).err(),
    };
    (fault, verifies(key, message, bytes))
}

/// The last byte is cut off.
#[test]
fn a_cut_signature_is_refused(rt: HostRuntime) -> Result<(), Fail> {
    let mut signer = made(rt.alloc())?;
    let signature = signer.sign(b"message")?;
    let cut = signature.get(..2347).unwrap_or_default();
    let found = refused(&signer.public(), b"message", cut);
    assert_eq!(rt; found, (Some(LmsFault::Length(2347)), false));
    Ok(())
}
