ghost use Rattle.std.specs.Prelude.{◌≡◌, ◌+◌, ◌<◌, ◌≤◌, ◌++◌, ◌∷◌, [], List, length, OnOk, IfOk, ℕ, Err, Ok, slice_get, option_map, unwrap_or, None, option_copied};
ghost use Rattle.std.specs.List.{flat_map};
ghost use Rattle.lynx_cells.specs.Database.{applied, value_at, with_value};
ghost use Rattle.lynx_hops.specs.Meaning.{key_of, meaning, run};
ghost use Rattle.lynx_set.specs.declared.action.Action.{Action};

use crate::ran::Ran;
use crate::value::{is_met, key_of, result_of, updated, value_of};
use lynx_cells::{Cells, Changes};
use lynx_names::{Memory, ProgramId, TableId, Values};
use lynx_set::{Action, ChainSet, Key};
use std::alloc::Global;
use thiserror::Error;

/// Why a hop gave nothing.
#[derive(Clone, Copy, Debug, PartialEq, Eq, Error)]
pub enum HopFault {
    /// The first of the hop's needs that isn't met, counted from 0. The hop changes nothing.
    #[error("need {0} isn't met")]
    Refused(u8),
    #[error("out of memory")]
    Memory,
}

impl From<Memory> for HopFault {
    ghost use Rattle.std.specs.Prelude.{◌≡◌};
    ghost use Rattle.lynx_hops.specs.declared.run.HopFault.TheVariants.{Memory};

    ghost from_gives = { λ _ fault. fault ≡ Memory };

    fn from(_: Memory) -> HopFault {
        HopFault::Memory
    }
}

/// A hop on its way: the values of the program's names so far, what came out, and the needs that
/// were met.
#[derive(Drop)]
struct Running<'a> {
    cells: &'a Cells,
    args: &'a [u64],
    names: Values,
    results: Values,
    changes: Changes,
    needs: u8,
}

impl Running<'_> {
    ghost use Rattle.lynx_hops.specs.inner.Runs.{outcome_of, here};

    /// What the cell holds now.
    fn read(&self, table: TableId, key: Key) -> u64
        ensures { result ≡ value_at (here self.now) table (key_of self.now.args.now key) }
    {
        self.cells
            .get_through(&self.changes, table, key_of(self.args, key))
    }

    /// The cell holds the value from now on.
    fn write(&mut self, table: TableId, key: Key, value: u64) -> Result<(), Memory>
        ensures written { OnOk result (here self.new ≡ with_value (here self.old) table
            (key_of self.old.args.now key) value) }
        ensures others { self.new ≡ record self.old { changes = self.new.changes } }
    {
        self.changes.put(table, key_of(self.args, key), value)
    }

    /// The value is the next name, and the next result.
    fn bind(&mut self, value: u64) -> Result<(), Memory>
        ensures { OnOk result (self.new ≡ record self.old {
          names = self.old.names
              ++ value ∷ [];
          results = self.old.results ++ value ∷ [];
        }) }
    {
        self.names.push(value)?;
        self.results.push(value)
    }

    /// One action. What all of them come to stays.
    fn step(&mut self, action: Action) -> Result<(), HopFault>
        requires { self.old.needs < 255 }
        ensures ran { OnOk result ((rest : List Action) → outcome_of self.old (action ∷ rest)
            ≡ outcome_of self.new rest) }
        ensures refused { result ≡ Err (HopFault.Refused self.old.needs) → (rest : List Action)
            → outcome_of self.old (action ∷ rest) ≡ Err self.old.needs }
        ensures need { (need : ℕ) → result ≡ Err (HopFault.Refused need) → need ≡ self.old.needs }
        ensures counted { OnOk result (self.new.needs ≤ self.old.needs + 1) }
        ensures same_cells { OnOk result (self.new.cells ≡ self.old.cells) }
    {
        match action {
            Action::Get { table, key } => {
                let value = self.read(table, key);
                self.bind(value)?;
            }
            Action::Update {
                update,
                table,
                key,
                value,
            } => {
                let value = value_of(self.names.as_slice(), value);
                let held = self.read(table, key);
                self.write(table, key, updated(update, held, value))?;
            }
            Action::Let {
                left,
                operator,
                right,
            } => {
                let left = value_of(self.names.as_slice(), left);
                let right = value_of(self.names.as_slice(), right);
                self.bind(result_of(operator, left, right))?;
            }
            Action::Need {
                left,
                relation,
                right,
            } => {
                let left = value_of(self.names.as_slice(), left);
                let right = value_of(self.names.as_slice(), right);
                if !is_met(relation, left, right) {
                    return Err(HopFault::Refused(self.needs));
                }
                self.needs += 1;
            }
        }
        Ok(())
    }
}

/// Adds the values at the end. After an error some may be there.
fn append(names: &mut Values, values: &[u64]) -> Result<(), Memory>
    ensures { OnOk result (names.new ≡ names.old ++ values.now) }
{
    for value in values {
        names.push(*value)?;
    }
    Ok(())
}

/// The values of the names that a hop finds: the arguments, and what the hops before it gave.
fn names_before(alloc: Global, args: &[u64], earlier: &[Values]) -> Result<Values, Memory>
    ensures { IfOk result (λ names. names ≡ args.now ++ flat_map (λ results. results) earlier.now) }
{
    let mut names = Values::new(alloc);
    append(&mut names, args)?;
    for results in earlier {
        append(&mut names, results.as_slice())?;
    }
    Ok(names)
}

/// Runs the actions in order.
fn run_actions(
    alloc: Global,
    actions: &[Action],
    args: &[u64],
    names: Values,
    cells: &Cells,
) -> Result<Ran, HopFault>
    requires { length actions.now < 255 }
    ensures ran { IfOk result (λ ran. run args.now 0 actions.now names cells.now.database
        ≡ Ok (ran.0, applied ran.1 cells.now.database)) }
    ensures refused { (need : ℕ) → result ≡ Err (HopFault.Refused need)
        → run args.now 0 actions.now names cells.now.database ≡ Err need }
{
    let mut running = Running {
        cells,
        args,
        names,
        results: Values::new(alloc),
        changes: Changes::new(alloc),
        needs: 0,
    };
    for action in actions {
        running.step(*action)?;
    }
    let Running {
        results,
        changes,
        ..
    } = running;
    Ok(Ran::new(results, changes))
}

/// Runs a hop of a program with the arguments of its chain and the results of the hops before it,
/// over the cells of its server, which stay as they are: the changes come with what ran. A hop that
/// the set hasn't does nothing. The work is that of the hop's actions, each a look-up among the
/// cells.
pub fn run_hop(
    alloc: Global,
    set: &ChainSet,
    program: ProgramId,
    hop: usize,
    args: &[u64],
    earlier: &[Values],
    cells: &Cells,
) -> Result<Ran, HopFault>
    ensures ran { IfOk result (λ ran.
        meaning set.now program hop args.now earlier.now cells.now.database
        ≡ Ok (ran.0, applied ran.1 cells.now.database)) }
    ensures refused { (need : ℕ) → result ≡ Err (HopFault.Refused need)
        → meaning set.now program hop args.now earlier.now cells.now.database ≡ Err need }
{
    let names = names_before(alloc, args, earlier)?;
    match set.hop(program, hop) {
        Some(hop) => run_actions(alloc, hop.actions.as_slice(), args, names, cells),
        None => run_actions(alloc, &[], args, names, cells),
    }
}
