//! Text of any bytes, as text of an XML document.

ghost use Rattle.std.specs.Prelude.{◌≡◌, ◌++◌, OnOk};
ghost use Rattle.svg_words.specs.Escape.{escaped_byte, escaped};

use std::alloc::AllocError;

fn escape_byte(out: &mut Vec<u8>, byte: u8) -> Result<(), AllocError>
    ensures { OnOk result (out.new.items ≡ out.old.items ++ escaped_byte byte) }
{
    match byte {
        b'&' => out.extend_from_slice(b"&amp;")?,
        b'<' => out.extend_from_slice(b"&lt;")?,
        b'>' => out.extend_from_slice(b"&gt;")?,
        b'"' => out.extend_from_slice(b"&quot;")?,
        32..=126 => out.push(byte)?,
        _ => out.push(b'?')?,
    }
    Ok(())
}

/// Writes text of any bytes, so that it is text of the XML document.
pub fn escape(out: &mut Vec<u8>, text: &[u8]) -> Result<(), AllocError>
    ensures { OnOk result (out.new.items ≡ out.old.items ++ escaped text.now) }
{
    for byte in text {
        escape_byte(out, *byte)?;
    }
    Ok(())
}
