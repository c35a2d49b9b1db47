//! Texts as they stand in a chart.
ghost use Rattle.std.specs.Prelude.{◌≡◌, ◌++◌, ◌≤◌, ◌^◌, ◌<◌, OnOk};
ghost use Rattle.lynx_chart.specs.Texts.{escape, escaped, fitted, title_line};

use lynx_names::Memory;

/// Writes a byte, where it means something else in a chart by its name.
fn put_byte(out: &mut Vec<u8>, byte: u8) -> Result<(), Memory>
    ensures { OnOk result (out.new.items ≡ out.old.items ++ escape byte) }
{
    match byte {
        b'&' => out.extend_from_slice(b"&amp;".as_slice())?,
        b'<' => out.extend_from_slice(b"&lt;".as_slice())?,
        b'>' => out.extend_from_slice(b"&gt;".as_slice())?,
        b'"' => out.extend_from_slice(b"&quot;".as_slice())?,
        other => out.push(other)?,
    }
    Ok(())
}

/// Writes a text.
pub(crate) fn put_escaped(out: &mut Vec<u8>, text: &[u8]) -> Result<(), Memory>
    ensures { OnOk result (out.new.items ≡ out.old.items ++ escaped text.now) }
{
    for byte in text {
        put_byte(out, *byte)?;
    }
    Ok(())
}

/// Writes at most that many bytes of a text, the last two of which say that there is more.
pub(crate) fn put_fitted(out: &mut Vec<u8>, most: usize, text: &[u8]) -> Result<(), Memory>
    ensures { OnOk result (out.new.items ≡ out.old.items ++ fitted most text.now) }
{
    if text.len() <= most {
        return put_escaped(out, text);
    }
    let shown = most.saturating_sub(2);
    put_escaped(out, &text[..shown])?;
    out.extend_from_slice(b"..".as_slice())?;
    Ok(())
}

/// Writes a line of what a box tells when one points at it, where there is one.
pub(crate) fn put_title_line(out: &mut Vec<u8>, line: &[u8]) -> Result<(), Memory>
    ensures { OnOk result (out.new.items ≡ out.old.items ++ title_line line.now) }
{
    match line {
        [] => Ok(()),
        [_, ..] => {
            put_escaped(out, line)?;
            out.push(b'\n')?;
            Ok(())
        }
    }
}
