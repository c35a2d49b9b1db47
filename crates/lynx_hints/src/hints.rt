//! The lines behind the one that names a fault.

ghost use Rattle.std.specs.Prelude.{ℕ, List, ◌≡◌, ◌++◌, IfOk, string_bytes};
ghost use Rattle.lynx_hints.specs.Heads.{head_of};

use crate::faults::put_fault;
use crate::site::Site;
use crate::view::put_line;
use lynx_lex::TextFault;
use lynx_set::ChainSet;
use std::alloc::{AllocError, Global};
use std::fmt::Write;

/// Which text a fault is of.
#[derive(Clone, Copy, Debug)]
pub enum Part<'a> {
    Set,
    /// A script over this set.
    Script(&'a ChainSet),
    /// What a service over this set is asked: the text is the line at fault alone, with its LF,
    /// whatever its number.
    Asked(&'a ChainSet),
}

/// The lines behind the one that names the fault, each with two spaces before it: the line at
/// fault, a mark under the word where it is one word, and in words what is wrong and what was
/// expected or is known. `name` is the file's name, or "standard input", and is shown as it is. The
/// text may be cut short behind one byte too many.
pub fn hint(
    alloc: Global,
    name: &str,
    text: &[u8],
    part: Part<'_>,
    fault: TextFault,
) -> Result<String, AllocError>
    ensures begins { IfOk result (λ lines. (rest : List ℕ) × (string_bytes lines
        ≡ head_of name.now fault.line ++ rest)) }
{
    let head = head_of(alloc, name, fault.line)?;
    let tail = tail_of(alloc, head.as_str().chars().count(), text, part, fault)?;
    let mut lines = head;
    lines.push_str(tail.as_str())?;
    Ok(lines)
}

/// What says the place: the file, and its line where there is one.
pub(crate) fn head_of(alloc: Global, name: &str, line: usize) -> Result<String, AllocError>
    ensures { IfOk result (λ head. string_bytes head ≡ head_of name.now line) }
{
    let mut head = format!(in alloc; "  {name}:")?;
    if line > 0 {
        head.push_str(format!(in alloc; "{line}")?.as_str())?;
        head.push_str(":")?;
    }
    Ok(head)
}

/// What stands behind the place, which has that many characters.
fn tail_of(
    alloc: Global,
    before: usize,
    text: &[u8],
    part: Part<'_>,
    fault: TextFault,
) -> Result<String, AllocError> {
    let site = Site::new(alloc, text, part, fault)?;
    let mut words = String::new(alloc);
    let mark = put_fault(&mut words, &site)?;
    let mut tail = String::new(alloc);
    if fault.line == 0 {
        writeln!(tail, " {} bytes or more", text.len())?;
    } else {
        put_line(&mut tail, site.line.bytes, mark, before)?;
    }
    tail.push_str(words.as_str())?;
    Ok(tail)
}
