//! How an entry goes into the keeper and into the books. All growth comes before the commit.
ghost use Rattle.std.specs.Prelude.{◌≡◌, ◌<◌, ◌++◌, ◌∷◌, [], false, None, OnErr, OnOk, Some, vec_capacity, vec_len};
ghost use Rattle.lynx_cells.specs.Contents.{IsStaged};
ghost use Rattle.lynx_entry.specs.declared.entry.Entry.TheVariants.{Begun};
ghost use Rattle.lynx_rules.specs.Lawful.{IsLawful};
ghost use Rattle.lynx_rules.specs.Turns.{is_begun};
ghost use Rattle.lynx_server.specs.Keeping.{kept_of};
ghost use Rattle.lynx_server.specs.inner.Keeping.{AreChangesOf, Commits};

use crate::books::Books;
use crate::counting::count_turn;
use lynx_cells::{Cells, Changes};
use lynx_entry::{BegunEntry, Entry};
use lynx_keep::{KeepFault, Keeper};
use lynx_names::{Memory, learn};
use lynx_seq::Draw;
use std::alloc::Global;

/// Room for one more entry, one more chain, and the changes. After an error some of the room may be
/// there.
fn make_room(
    history: &mut Vec<Entry>,
    chains: &mut Vec<usize>,
    cells: &mut Cells,
    changes: &Changes,
) -> Result<(), Memory>
    ensures history { history.new.items ≡ history.old.items }
    ensures chains { chains.new.items ≡ chains.old.items }
    ensures cells { cells.new.database ≡ cells.old.database }
    ensures history_room { OnOk result (vec_len history.new < vec_capacity history.new) }
    ensures chains_room { OnOk result (vec_len chains.new < vec_capacity chains.new) }
    ensures staged { OnOk result (IsStaged cells.new changes.now) }
{
    history.reserve(1)?;
    chains.reserve(1)?;
    cells.stage(changes)?;
    Ok(())
}

/// An entry that wasn't kept is let go.
pub(crate) fn release(entry: Entry) {
    let _ = entry;
}

/// An entry that wasn't kept is let go, and its changes with it.
fn release_both(entry: Entry, changes: Changes) {
    release(entry);
    let _ = changes;
}

impl Books {
    /// Keeps the entry of a chain that began, and binds its numbers. A fault gives them back.
    pub(crate) fn keep_begun<K: Keeper>(
        &mut self,
        alloc: Global,
        keeper: &mut K,
        draw: Draw,
        begun: BegunEntry,
        changes: Changes,
    ) -> Result<(), KeepFault>
        requires drawn { self.old.out ≡ Some draw }
        requires numbers { begun.numbers ≡ draw }
        requires lawful { IsLawful self.old.set self.old.server self.old.history (Begun begun) }
        requires changes { AreChangesOf self.old.set self.old.history (Begun begun) changes }
        ensures ok { OnOk result (self.new ≡ record self.old {
          history = self.old.history
              ++ Begun begun ∷ [];
          out = None;
        }) }
        ensures err { OnErr result (self.new ≡ record self.old { out = None }) }
        ensures commits { Commits K.terms keeper.old keeper.new
            (kept_of self.old.set self.old.history)
            (kept_of self.old.set (self.old.history ++ Begun begun ∷ [])) result }
    {
        // A lawful entry is in range where the server's number is.
        learn(self.server().number());
        let entry = Entry::Begun(begun);
        if make_room(
            &mut self.history,
            &mut self.chains,
            &mut self.cells,
            &changes,
        )
        .is_err()
        {
            draw.give_back(&mut self.sequencer);
            release_both(entry, changes);
            return Err(KeepFault::Memory);
        }
        if let Err(fault) = keeper.commit(alloc, &entry, &changes) {
            draw.give_back(&mut self.sequencer);
            release_both(entry, changes);
            return Err(fault);
        }
        let _ = draw.bind(&mut self.sequencer);
        count_turn(&self.set, self.server, &mut self.turns, &entry);
        self.cells.apply(&changes);
        let place = self.history.as_slice().len();
        self.chains.push_reserved(place);
        self.history.push_reserved(entry);
        Ok(())
    }

    /// Keeps an entry in which no chain began.
    pub(crate) fn keep_other<K: Keeper>(
        &mut self,
        alloc: Global,
        keeper: &mut K,
        entry: Entry,
        changes: Changes,
    ) -> Result<(), KeepFault>
        requires other { is_begun entry ≡ false }
        requires lawful { IsLawful self.old.set self.old.server self.old.history entry }
        requires changes { AreChangesOf self.old.set self.old.history entry changes }
        ensures ok { OnOk result (self.new ≡ record self.old {
          history = self.old.history
              ++ entry ∷ [];
        }) }
        ensures err { OnErr result (self.new ≡ self.old) }
        ensures commits { Commits K.terms keeper.old keeper.new
            (kept_of self.old.set self.old.history)
            (kept_of self.old.set (self.old.history ++ entry ∷ [])) result }
    {
        // A lawful entry is in range where the server's number is.
        learn(self.server().number());
        if make_room(
            &mut self.history,
            &mut self.chains,
            &mut self.cells,
            &changes,
        )
        .is_err()
        {
            release_both(entry, changes);
            return Err(KeepFault::Memory);
        }
        if let Err(fault) = keeper.commit(alloc, &entry, &changes) {
            release_both(entry, changes);
            return Err(fault);
        }
        count_turn(&self.set, self.server, &mut self.turns, &entry);
        self.cells.apply(&changes);
        self.history.push_reserved(entry);
        Ok(())
    }
}
