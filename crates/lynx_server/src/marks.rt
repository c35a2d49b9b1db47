//! Which entries' next messages were acknowledged. Past its end a list of marks says no.
ghost use Rattle.std.specs.Prelude.{◌≡◌, ◌<◌, ◌≤◌, ℕ, OnOk, vec_capacity};
ghost use Rattle.lynx_names.specs.declared.limits.TheConstants.{MAX_ENTRIES};
ghost use Rattle.lynx_server.specs.Owed.{HasMarked};

use lynx_names::Memory;

/// Room for the mark of one entry more than there are.
pub(crate) fn make_mark_room(marks: &mut Vec<bool>, entries: usize) -> Result<(), Memory>
    requires { entries < MAX_ENTRIES }
    ensures items { marks.new.items ≡ marks.old.items }
    ensures grown { vec_capacity marks.old ≤ vec_capacity marks.new }
    ensures room { OnOk result (entries < vec_capacity marks.new) }
{
    let marked = marks.len();
    if marked <= entries {
        marks.reserve(entries - marked + 1)?;
    }
    Ok(())
}

/// Marks the place. Takes no memory.
pub(crate) fn mark(marks: &mut Vec<bool>, place: usize)
    requires { place < vec_capacity marks.old }
    ensures marked { HasMarked marks.old.items place marks.new.items }
    ensures capacity { vec_capacity marks.new ≡ vec_capacity marks.old }
{
    while marks.len() <= place {
        marks.push_reserved(false);
    }
    marks[place] = true;
}
