ghost use Rattle.std.specs.Prelude.{◌≡◌, ◌++◌, OnOk};
ghost use Rattle.svg_text.specs.Drawing.{escaped, shown_byte, titled};

use plain_text::{Bytes, NoMemory};

/// Appends a byte of a text as it is shown.
fn put_byte(out: &mut Bytes, byte: u8) -> Result<(), NoMemory>
    ensures { OnOk result (out.new ≡ out.old ++ shown_byte byte) }
{
    match byte {
        b'&' => out.extend(b"&amp;"),
        b'<' => out.extend(b"&lt;"),
        b'>' => out.extend(b"&gt;"),
        b'"' => out.extend(b"&quot;"),
        b'\t' | b'\n' | b' '..=b'~' => out.push(byte),
        _ => out.push(b'?'),
    }
}

/// Appends a text as it is shown.
pub fn put_escaped(out: &mut Bytes, text: &[u8]) -> Result<(), NoMemory>
    ensures { OnOk result (out.new ≡ out.old ++ escaped text.now) }
{
    for byte in text {
        put_byte(out, *byte)?;
    }
    Ok(())
}

/// Appends a title.
pub fn put_titled(out: &mut Bytes, title: &[u8]) -> Result<(), NoMemory>
    ensures { OnOk result (out.new ≡ out.old ++ titled title.now) }
{
    out.extend(b"<title>")?;
    put_escaped(out, title)?;
    out.extend(b"</title>")
}
