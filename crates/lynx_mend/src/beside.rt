//! Tables beside others, and their names.
use crate::roles::{Role, Roles};
use crate::writing::put_whole_table;
use lynx_lex::Name;
use lynx_names::limits::MAX_NAME_BYTES;
use lynx_names::{Memory, TableId};
use lynx_set::ChainSet;
use lynx_text::printing::put_number;
use std::alloc::Global;

/// What is put behind the name of a table, for the table beside it: the server, and where that
/// isn't enough the table's number.
fn tail(alloc: Global, roles: &Roles, table: Option<TableId>) -> Result<Vec<u8>, Memory> {
    let mut tail = Vec::new(alloc);
    tail.extend_from_slice(b"_at_".as_slice())?;
    put_number(alloc, &mut tail, u64::from(roles.server.number()))?;
    if let Some(table) = table {
        tail.push(b'_')?;
        put_number(alloc, &mut tail, u64::from(table.number()))?;
    }
    Ok(tail)
}

/// The name with that behind it, cut short before it where it has to be.
fn with_tail(alloc: Global, name: &[u8], tail: &[u8]) -> Result<Option<Name>, Memory> {
    let room = MAX_NAME_BYTES.saturating_sub(tail.len());
    let mut bytes = Vec::new(alloc);
    bytes.extend_from_slice(&name[..name.len().min(room)])?;
    bytes.extend_from_slice(tail)?;
    Ok(Name::new(bytes.as_slice()))
}

/// The name of the table beside: one that the set hasn't, and that no other table beside gets.
pub(crate) fn name_beside(
    alloc: Global,
    set: &ChainSet,
    roles: &Roles,
    table: TableId,
) -> Result<Option<Name>, Memory> {
    let name = set.table_name(table);
    let short = tail(alloc, roles, None)?;
    if name.len().saturating_add(short.len()) <= MAX_NAME_BYTES {
        if let Some(found) = with_tail(alloc, name, short.as_slice())? {
            if set.find_table(&found).is_none() {
                return Ok(Some(found));
            }
        }
    }
    let long = tail(alloc, roles, Some(table))?;
    with_tail(alloc, name, long.as_slice())
}

/// The names of the set's tables, with that of the table beside in place of its own where there is
/// one.
pub(crate) fn names_beside(
    alloc: Global,
    set: &ChainSet,
    roles: &Roles,
) -> Result<Vec<Name>, Memory> {
    let mut names = Vec::new(alloc);
    for (number, own) in set.tables().as_slice().iter().enumerate() {
        let name = match TableId::new(number.min(255) as u8) {
            Some(table) if roles.role_of(table) == Role::Mirrored => {
                name_beside(alloc, set, roles, table)?.unwrap_or(*own)
            }
            _ => *own,
        };
        names.push(name)?;
    }
    Ok(names)
}

/// The lines of the tables beside, all of whose cells are at the server.
pub(crate) fn tables_beside(
    alloc: Global,
    set: &ChainSet,
    roles: &Roles,
) -> Result<Vec<u8>, Memory> {
    let mut out = Vec::new(alloc);
    for number in 0..set.tables().len() {
        if let Some(table) = TableId::new(number.min(255) as u8) {
            if roles.role_of(table) == Role::Mirrored {
                if let Some(name) = name_beside(alloc, set, roles, table)? {
                    put_whole_table(alloc, &mut out, &name, roles.server)?;
                }
            }
        }
    }
    Ok(out)
}
