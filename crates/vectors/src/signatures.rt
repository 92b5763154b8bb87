//! Judges signatures that others made, and makes the keys and the signatures that others made.
//!
//! A line of a file is `NAME KEY MESSAGE SIGNATURE VERDICT`: the bytes in hex, `-` for the empty
//! message, and what another implementation said, which is not read here.

ghost use Rattle.lms_signatures.specs.Signing.{IsHeight};

use anyhow::{Context, Result, anyhow};
use lms_signatures::{Signer, verifies};
use sha2::{Digest, Sha256};

/// A key, a message and what is said to be its signature.
#[derive(Drop)]
struct Vector<'a> {
    name: &'a str,
    key: Vec<u8>,
    message: Vec<u8>,
    signature: Vec<u8>,
}

/// The bytes of a field.
fn bytes_of(rt: &HostRuntime, field: Option<&str>) -> Result<Vec<u8>> {
    let text = field.context("a field is missing")?;
    let bytes = if text == "-" {
        Vec::new(rt.alloc())
    } else {
        hex::decode(rt.alloc(), text)?
    };
    Ok(bytes)
}

/// The vector of a line.
fn vector_of<'a>(rt: &HostRuntime, line: &'a str) -> Result<Vector<'a>> {
    let mut fields = line.split(' ');
    let name = fields.next().context("a name is missing")?;
    let key = bytes_of(rt, fields.next())?;
    let message = bytes_of(rt, fields.next())?;
    let signature = bytes_of(rt, fields.next())?;
    Ok(Vector {
        name,
        key,
        message,
        signature,
    })
}

/// Prints what is said of a vector.
pub(crate) fn judge(rt: &HostRuntime, line: &str) -> Result<()> {
    let vector = vector_of(rt, line)?;
    let word = if verifies(&vector.key, &vector.message, &vector.signature) {
        "accept"
    } else {
        "reject"
    };
    println!(rt; "{} {word}", vector.name)?;
    Ok(())
}

/// The signer of a name, with 2^h indices, whose seed and identifier are digests of the name.
fn signer_of(rt: &HostRuntime, name: &str, h: u8) -> Result<Signer>
    requires { IsHeight h }
{
    let seed = Sha256::digest(format!(in rt.alloc(); "seed {name}")?.as_bytes());
    let digest = Sha256::digest(format!(in rt.alloc(); "id {name}")?.as_bytes());
    let mut id = [0; 16];
    id.copy_from_slice(&digest[..16]);
    Signer::make(rt.alloc(), seed, id, h).map_err(|_| anyhow!("no memory was left"))
}

/// Prints whether the signer's next signature of the vector's message is the vector's.
fn sign_again(rt: &HostRuntime, signer: &mut Signer, vector: &Vector) -> Result<()> {
    let made = signer
        .sign(&vector.message)
        .map_err(|_| anyhow!("nothing was signed"))?;
    let word = if made == vector.signature {
        "same"
    } else {
        "other"
    };
    println!(rt; "{} {word}", vector.name)?;
    Ok(())
}

/// Prints the key of a name, and what comes of signing the messages of the lines with that name.
pub(crate) fn make_again(rt: &HostRuntime, name: &str, h: u8, lines: &str) -> Result<()>
    requires { IsHeight h }
{
    let mut signer = signer_of(rt, name, h)?;
    let key = hex::encode(rt.alloc(), signer.public())?;
    println!(rt; "key {name} {key}")?;
    for line in lines.lines() {
        let vector = vector_of(rt, line)?;
        if vector.name == name {
            sign_again(rt, &mut signer, &vector)?;
        }
    }
    Ok(())
}
