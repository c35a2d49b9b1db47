//! Names of tables, listed.

ghost use Rattle.std.specs.Prelude.{◌≡◌, ◌++◌, OnOk};
ghost use Rattle.lynx_draw.specs.Tables.{listed, listed_after};

use lynx_names::Memory;
use lynx_set::Name;

/// Writes each name after a comma.
fn put_listed_after(out: &mut Vec<u8>, names: &[Name]) -> Result<(), Memory>
    ensures { OnOk result (out.new.items ≡ out.old.items ++ listed_after names.now) }
{
    for name in names {
        out.extend_from_slice(b", ".as_slice())?;
        out.extend_from_slice(name.as_bytes())?;
    }
    Ok(())
}

/// Writes the names with commas between them.
pub(crate) fn put_listed(out: &mut Vec<u8>, names: &[Name]) -> Result<(), Memory>
    ensures { OnOk result (out.new.items ≡ out.old.items ++ listed names.now) }
{
    let [first, rest @ ..] = names else {
        return Ok(());
    };
    out.extend_from_slice(first.as_bytes())?;
    put_listed_after(out, rest)
}
