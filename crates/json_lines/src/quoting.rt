//! Strings.

ghost use Rattle.std.specs.Prelude.{◌≡◌, ◌<◌, ◌++◌, ◌∷◌, [], flat_map, OnOk};
ghost use Rattle.json_lines.specs.Json.{hex_digit, escape, quoted, member};

use channel_values::NoMemory;

/// The digit of base 16.
fn hex_digit(value: u8) -> u8
    requires { value < 16 }
    ensures { result ≡ hex_digit value }
{
    if value < 10 { 48 + value } else { 87 + value }
}

/// Adds a byte of a string.
fn push_escaped(out: &mut Vec<u8>, byte: u8) -> Result<(), NoMemory>
    ensures { OnOk result (out.new.items ≡ out.old.items ++ escape byte) }
{
    match byte {
        b'"' => out.extend_from_slice(&[92, 34])?,
        b'\\' => out.extend_from_slice(&[92, 92])?,
        0..=31 => {
            let high = hex_digit(byte / 16);
            let low = hex_digit(byte % 16);
            out.extend_from_slice(&[92, 117, 48, 48, high, low])?;
        }
        _ => out.push(byte)?,
    }
    Ok(())
}

/// Adds bytes as a string.
pub(crate) fn push_quoted(out: &mut Vec<u8>, bytes: &[u8]) -> Result<(), NoMemory>
    ensures { OnOk result (out.new.items ≡ out.old.items ++ quoted bytes.now) }
{
    out.push(34)?;
    for byte in bytes {
        push_escaped(out, *byte)?;
    }
    out.push(34)?;
    Ok(())
}

/// Adds a member after others.
pub(crate) fn push_member(out: &mut Vec<u8>, name: &[u8], word: &[u8]) -> Result<(), NoMemory>
    ensures { OnOk result (out.new.items ≡ out.old.items ++ member name.now word.now) }
{
    out.push(44)?;
    push_quoted(out, name)?;
    out.push(58)?;
    push_quoted(out, word)
}
