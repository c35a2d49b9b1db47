//! Writing the text of a set.

ghost use Rattle.std.specs.Prelude.{◌≡◌, ◌<◌, ◌^◌, ◌+◌, ◌++◌, ◌∷◌, [], List, OnOk, IfOk, decimal, sum_by, map, flat_map, unwrap_or, slice_get};
ghost use Rattle.lynx_names.specs.declared.limits.TheConstants.{MAX_ACTIONS};
ghost use Rattle.lynx_lex.specs.Lines.{spaced, joined, line};
ghost use Rattle.lynx_set.specs.Text.{name_at, key_word, operand_word, operator_word, relation_word, update_word, action_words, bound_names, bound_in, action_lines, hop_lines, hops_lines, program_words, interval_word, range_words, program_lines, programs_lines, shard_words, table_lines, tables_lines, version_word, head_lines, text, text_of};

use indexmap::IndexMap;
use lynx_lex::Name;
use lynx_names::{Items, Memory, TableId};
use lynx_set::{
    Action, ChainSet, Hop, Interval, Key, Operand, Operator, ParameterRange, Program, Relation,
    Update, Version,
};
use lynx_shards::Shard;
use std::alloc::Global;

/// The one text of the set.
#[tactic(auto, using(crate::proofs::Texts::text_append))]
pub fn print(alloc: Global, set: &ChainSet) -> Result<Vec<u8>, Memory>
    ensures { IfOk result (λ bytes. bytes.items ≡ text_of set.now) }
{
    let mut out = Vec::new(alloc);
    put_head(alloc, &mut out, set.version(), set.servers())?;
    put_tables(
        alloc,
        &mut out,
        set.tables().as_slice(),
        set.shards().tables(),
    )?;
    put_programs(alloc, &mut out, set.tables().as_slice(), set.programs())?;
    Ok(out)
}

fn put_head(alloc: Global, out: &mut Vec<u8>, version: Version, servers: u8) -> Result<(), Memory>
    ensures { OnOk result (out.new.items ≡ out.old.items ++ text (head_lines version servers)) }
{
    out.extend_from_slice(b"lynx ".as_slice())?;
    out.extend_from_slice(version_word(version))?;
    out.extend_from_slice(b"\nservers ".as_slice())?;
    put_number(alloc, out, u64::from(servers))?;
    end_line(out)?;
    Ok(())
}

#[tactic(auto, using(crate::proofs::Texts::text_append))]
fn version_word(version: Version) -> &'static [u8]
    ensures { result.now ≡ version_word version }
{
    match version {
        Version::One => b"1",
        Version::Two => b"2",
    }
}

fn put_tables(
    alloc: Global,
    out: &mut Vec<u8>,
    names: &[Name],
    tables: &[Items<Shard>],
) -> Result<(), Memory>
    ensures { OnOk result (out.new.items ≡ out.old.items ++ text
        (tables_lines names.now tables.now)) }
{
    for (place, name) in names.iter().enumerate() {
        if let Some(shards) = tables.get(place) {
            put_table(alloc, out, name, shards.as_slice())?;
        }
    }
    Ok(())
}

fn put_table(alloc: Global, out: &mut Vec<u8>, name: &Name, shards: &[Shard]) -> Result<(), Memory>
    ensures { OnOk result (out.new.items ≡ out.old.items ++ text
        (table_lines name.now shards.now)) }
{
    out.extend_from_slice(b"table".as_slice())?;
    put_word(out, name.as_bytes())?;
    end_line(out)?;
    for shard in shards {
        put_shard(alloc, out, shard)?;
    }
    Ok(())
}

fn put_shard(alloc: Global, out: &mut Vec<u8>, shard: &Shard) -> Result<(), Memory>
    ensures { OnOk result (out.new.items ≡ out.old.items ++ line (shard_words shard.now)) }
{
    out.extend_from_slice(b"shard ".as_slice())?;
    put_number(alloc, out, shard.low)?;
    out.push(b' ')?;
    put_number(alloc, out, shard.high)?;
    out.push(b' ')?;
    put_number(alloc, out, u64::from(shard.server.number()))?;
    end_line(out)
}

#[tactic(auto, using(crate::proofs::Texts::text_append))]
fn put_programs(
    alloc: Global,
    out: &mut Vec<u8>,
    tables: &[Name],
    programs: &IndexMap<Name, Program>,
) -> Result<(), Memory>
    ensures { OnOk result (out.new.items ≡ out.old.items ++ text
        (programs_lines tables.now programs.now.entries)) }
{
    for (name, program) in programs {
        put_program(alloc, out, tables, name, program)?;
    }
    Ok(())
}

#[tactic(auto, using(crate::proofs::Texts::text_append))]
fn put_program(
    alloc: Global,
    out: &mut Vec<u8>,
    tables: &[Name],
    name: &Name,
    program: &Program,
) -> Result<(), Memory>
    ensures { OnOk result (out.new.items ≡ out.old.items ++ text (program_lines tables.now
        (name.now, program.now))) }
{
    put_program_head(out, name, program)?;
    put_ranges(
        alloc,
        out,
        program.names.as_slice(),
        program.ranges.as_slice(),
    )?;
    put_hops(alloc, out, tables, program)?;
    out.extend_from_slice(b"end\n".as_slice())?;
    Ok(())
}

fn put_program_head(out: &mut Vec<u8>, name: &Name, program: &Program) -> Result<(), Memory>
    ensures { OnOk result (out.new.items ≡ out.old.items ++ line
        (program_words name.now program.now)) }
{
    out.extend_from_slice(b"program".as_slice())?;
    put_word(out, name.as_bytes())?;
    let names = program.names.as_slice();
    put_words(out, &names[..program.parameters.min(names.len())])?;
    end_line(out)
}

fn put_ranges(
    alloc: Global,
    out: &mut Vec<u8>,
    names: &[Name],
    ranges: &[ParameterRange],
) -> Result<(), Memory>
    ensures { OnOk result (out.new.items ≡ out.old.items ++ text
        (map (range_words names.now) ranges.now)) }
{
    for range in ranges {
        put_range(alloc, out, names, range)?;
    }
    Ok(())
}

fn put_range(
    alloc: Global,
    out: &mut Vec<u8>,
    names: &[Name],
    range: &ParameterRange,
) -> Result<(), Memory>
    ensures { OnOk result
        (out.new.items ≡ out.old.items ++ line (range_words names.now range.now)) }
{
    out.extend_from_slice(b"range".as_slice())?;
    put_name(out, names, usize::from(range.parameter))?;
    out.push(b' ')?;
    put_interval(alloc, out, range.interval)?;
    end_line(out)
}

/// Writes an interval, `..` between its ends. Where memory is wanting a part of it may be written.
pub fn put_interval(alloc: Global, out: &mut Vec<u8>, interval: Interval) -> Result<(), Memory>
    ensures { OnOk result (out.new.items ≡ out.old.items ++ interval_word interval) }
{
    put_number(alloc, out, interval.low)?;
    out.extend_from_slice(b"..".as_slice())?;
    put_number(alloc, out, interval.high)
}

/// Writes a space before each name.
fn put_words(out: &mut Vec<u8>, words: &[Name]) -> Result<(), Memory>
    ensures { OnOk result (out.new.items ≡ out.old.items ++ spaced words.now) }
{
    for word in words {
        put_word(out, word.as_bytes())?;
    }
    Ok(())
}

#[tactic(auto, using(crate::proofs::Texts::text_append))]
fn put_hops(
    alloc: Global,
    out: &mut Vec<u8>,
    tables: &[Name],
    program: &Program,
) -> Result<(), Memory>
    ensures { OnOk result (out.new.items ≡ out.old.items
        ++ text (hops_lines tables.now program.now.names program.now.parameters program.now.hops)) }
{
    let mut place = program.parameters;
    for hop in program.hops.as_slice() {
        place = put_hop(alloc, out, tables, program.names.as_slice(), place, hop)?;
    }
    Ok(())
}

/// Writes a hop, whose first binding action binds the name at that place, and answers the next
/// place.
fn put_hop(
    alloc: Global,
    out: &mut Vec<u8>,
    tables: &[Name],
    names: &[Name],
    place: usize,
    hop: &Hop,
) -> Result<usize, Memory>
    requires { place + MAX_ACTIONS < 2 ^ 64 }
    ensures next { IfOk result (λ next. next ≡ place + bound_in hop.now.actions) }
    ensures written { OnOk result (out.new.items ≡ out.old.items
        ++ text (hop_lines tables.now names.now place hop.now)) }
{
    out.extend_from_slice(b"hop ".as_slice())?;
    put_number(alloc, out, u64::from(hop.server.number()))?;
    end_line(out)?;
    let mut next = place;
    for action in hop.actions.as_slice() {
        put_action(alloc, out, tables, names, next, action)?;
        next += bound_names(action);
    }
    Ok(next)
}

/// How many names the action binds, 0 or 1.
pub fn bound_names(action: &Action) -> usize
    ensures { result ≡ bound_names action.now }
{
    usize::from(action.binds())
}

/// Writes the line of an action, which binds the name at `place` if it binds one.
fn put_action(
    alloc: Global,
    out: &mut Vec<u8>,
    tables: &[Name],
    names: &[Name],
    place: usize,
    action: &Action,
) -> Result<(), Memory>
    ensures { OnOk result (out.new.items ≡ out.old.items ++ line
        (action_words tables.now names.now place action.now)) }
{
    put_action_words(alloc, out, tables, names, place, action)?;
    end_line(out)
}

/// Writes the words of an action, with a space between two and none at either end. `tables` are the
/// set's, `names` the program's, and `place` is that of the name which the action binds if it binds
/// one; a table or a name that stands in neither is written as an empty word. Where memory is
/// wanting a part of the words may be written.
pub fn put_action_words(
    alloc: Global,
    out: &mut Vec<u8>,
    tables: &[Name],
    names: &[Name],
    place: usize,
    action: &Action,
) -> Result<(), Memory>
    ensures { OnOk result (out.new.items ≡ out.old.items ++ joined
        (action_words tables.now names.now place action.now)) }
{
    match *action {
        Action::Get { table, key } => put_get(alloc, out, tables, names, place, (table, key)),
        Action::Update {
            update,
            table,
            key,
            value,
        } => put_update(alloc, out, tables, names, update, (table, key), value),
        Action::Let {
            left,
            operator,
            right,
        } => put_let(alloc, out, names, place, left, operator, right),
        Action::Need {
            left,
            relation,
            right,
        } => put_need(alloc, out, names, left, relation, right),
    }
}

fn put_get(
    alloc: Global,
    out: &mut Vec<u8>,
    tables: &[Name],
    names: &[Name],
    place: usize,
    cell: (TableId, Key),
) -> Result<(), Memory>
    ensures { OnOk result (out.new.items ≡ out.old.items ++ joined
        (action_words tables.now names.now place (Action.Get cell.0 cell.1))) }
{
    let (table, key) = cell;
    out.extend_from_slice(b"get".as_slice())?;
    put_name(out, names, place)?;
    put_cell(alloc, out, tables, names, table, key)
}

/// Writes the words of an action that changes a cell.
fn put_update(
    alloc: Global,
    out: &mut Vec<u8>,
    tables: &[Name],
    names: &[Name],
    update: Update,
    cell: (TableId, Key),
    value: Operand,
) -> Result<(), Memory>
    ensures { OnOk result (out.new.items ≡ out.old.items ++ joined
        (action_words tables.now names.now 0 (Action.Update update cell.0 cell.1 value))) }
{
    let (table, key) = cell;
    out.extend_from_slice(verb_of(update))?;
    put_cell(alloc, out, tables, names, table, key)?;
    put_operand(alloc, out, names, value)
}

fn verb_of(update: Update) -> &'static [u8]
    ensures { result.now ≡ update_word update }
{
    match update {
        Update::Set => b"set",
        Update::Add => b"add",
        Update::Sub => b"sub",
        Update::Max => b"max",
    }
}

fn put_let(
    alloc: Global,
    out: &mut Vec<u8>,
    names: &[Name],
    place: usize,
    left: Operand,
    operator: Operator,
    right: Operand,
) -> Result<(), Memory>
    ensures { OnOk result (out.new.items ≡ out.old.items ++ joined
        (action_words [] names.now place (Action.Let left operator right))) }
{
    out.extend_from_slice(b"let".as_slice())?;
    put_name(out, names, place)?;
    put_operand(alloc, out, names, left)?;
    put_word(out, operator_word(operator))?;
    put_operand(alloc, out, names, right)
}

fn put_need(
    alloc: Global,
    out: &mut Vec<u8>,
    names: &[Name],
    left: Operand,
    relation: Relation,
    right: Operand,
) -> Result<(), Memory>
    ensures { OnOk result (out.new.items ≡ out.old.items ++ joined (action_words [] names.now 0
        (Action.Need left relation right))) }
{
    out.extend_from_slice(b"need".as_slice())?;
    put_operand(alloc, out, names, left)?;
    put_word(out, relation_word(relation))?;
    put_operand(alloc, out, names, right)
}

fn put_cell(
    alloc: Global,
    out: &mut Vec<u8>,
    tables: &[Name],
    names: &[Name],
    table: TableId,
    key: Key,
) -> Result<(), Memory>
    ensures { OnOk result (out.new.items ≡ out.old.items ++ spaced
        (name_at tables.now table ∷ key_word names.now key ∷ [])) }
{
    put_name(out, tables, table.index())?;
    match key {
        Key::Literal(number) => {
            out.push(b' ')?;
            put_number(alloc, out, number)
        }
        Key::Param(place) => put_name(out, names, usize::from(place)),
    }
}

fn put_operand(
    alloc: Global,
    out: &mut Vec<u8>,
    names: &[Name],
    value: Operand,
) -> Result<(), Memory>
    ensures { OnOk result (out.new.items ≡ out.old.items ++ 32 ∷ operand_word names.now value) }
{
    match value {
        Operand::Number(number) => {
            out.push(b' ')?;
            put_number(alloc, out, number)
        }
        Operand::Name(place) => put_name(out, names, usize::from(place)),
    }
}

fn operator_word(operator: Operator) -> &'static [u8]
    ensures { result.now ≡ operator_word operator }
{
    match operator {
        Operator::Plus => b"+",
        Operator::Minus => b"-",
    }
}

fn relation_word(relation: Relation) -> &'static [u8]
    ensures { result.now ≡ relation_word relation }
{
    match relation {
        Relation::Below => b"<",
        Relation::AtMost => b"<=",
        Relation::Same => b"=",
        Relation::Differs => b"!=",
        Relation::AtLeast => b">=",
        Relation::Above => b">",
    }
}

/// Writes a space and the name at that place.
fn put_name(out: &mut Vec<u8>, names: &[Name], place: usize) -> Result<(), Memory>
    ensures { OnOk result (out.new.items ≡ out.old.items ++ 32 ∷ name_at names.now place) }
{
    out.push(b' ')?;
    if let Some(name) = names.get(place) {
        out.extend_from_slice(name.as_bytes())?;
    }
    Ok(())
}

/// Writes a space and the word. Where memory is wanting the space may be written.
pub fn put_word(out: &mut Vec<u8>, word: &[u8]) -> Result<(), Memory>
    ensures { OnOk result (out.new.items ≡ out.old.items ++ 32 ∷ word.now) }
{
    out.push(b' ')?;
    out.extend_from_slice(word)?;
    Ok(())
}

/// Writes a number in decimal, without leading zeros.
pub fn put_number(alloc: Global, out: &mut Vec<u8>, number: u64) -> Result<(), Memory>
    ensures { OnOk result (out.new.items ≡ out.old.items ++ decimal number) }
{
    let digits = number.to_string(alloc)?;
    out.extend_from_slice(digits.as_bytes())?;
    Ok(())
}

fn end_line(out: &mut Vec<u8>) -> Result<(), Memory>
    ensures { OnOk result (out.new.items ≡ out.old.items ++ 10 ∷ []) }
{
    out.push(b'\n')?;
    Ok(())
}
