//! The query of a look-up of cells.
ghost use Rattle.std.specs.Prelude.{◌≡◌, option_map, option_copied};
ghost use Rattle.lynx_status.specs.Wanted.{ended, fair, fields_in, first_field, is_fair, no_fields, once, one_more, range_in, range_of, with_field, with_number};

use crate::parted::cut;
use crate::wanted::CellRange;
use lynx_lex::number::number;

/// How many cells are told where no limit is given.
const USUAL_LIMIT: u64 = 1_000;

/// How many are told at most.
const MOST_LIMIT: u64 = 10_000;

/// What a query gives.
#[derive(Clone, Copy)]
pub(crate) struct Fields {
    pub from: Option<u64>,
    pub to: Option<u64>,
    pub limit: Option<u64>,
}

impl Fields {
    /// It gives nothing.
    fn none() -> Fields
        ensures { result ≡ no_fields }
    {
        Fields {
            from: None,
            to: None,
            limit: None,
        }
    }
}

/// The fields, where that one wasn't given before.
fn once(given: Option<u64>, fields: Fields) -> Option<Fields>
    ensures { result ≡ once given fields }
{
    match given {
        Some(_) => None,
        None => Some(fields),
    }
}

/// What is given with the number under that name besides.
fn with_number(name: &[u8], fields: Fields, number: u64) -> Option<Fields>
    ensures { result ≡ with_number name.now fields number }
{
    let given = Some(number);
    if name == b"from".as_slice() {
        once(
            fields.from,
            Fields {
                from: given,
                ..fields
            },
        )
    } else if name == b"to".as_slice() {
        once(
            fields.to,
            Fields {
                to: given,
                ..fields
            },
        )
    } else if name == b"limit".as_slice() {
        once(
            fields.limit,
            Fields {
                limit: given,
                ..fields
            },
        )
    } else {
        None
    }
}

/// What is given with that field besides.
fn with_field(fields: Fields, field: &[u8]) -> Option<Fields>
    ensures { result ≡ with_field fields field.now }
{
    let (name, spelled) = cut(field, b'=')?;
    with_number(name, fields, number(spelled)?)
}

/// The first field of a query, and the fields behind it.
fn first_field(query: &[u8]) -> (&[u8], Option<&[u8]>)
    ensures { (result.0.now, option_copied result.1) ≡ first_field query.now }
{
    match cut(query, b'&') {
        Some((field, rest)) => (field, Some(rest)),
        None => (query, None),
    }
}

/// What is left of a query, and what is given with its first field, if it has one.
fn one_more(query: Option<&[u8]>, fields: Fields) -> Option<(Option<&[u8]>, Fields)>
    ensures { option_map (λ more. (option_copied more.0, more.1)) result
        ≡ one_more (option_copied query.entry, fields) }
{
    let Some(query) = query else {
        return Some((None, fields));
    };
    let (field, rest) = first_field(query);
    Some((rest, with_field(fields, field)?))
}

/// What a query gives: each field at most once.
fn fields_in(query: Option<&[u8]>) -> Option<Fields>
    ensures { result ≡ fields_in (option_copied query.entry) }
{
    let (rest, fields) = one_more(query, Fields::none())?;
    let (rest, fields) = one_more(rest, fields)?;
    let (rest, fields) = one_more(rest, fields)?;
    match rest {
        Some(_) => None,
        None => Some(fields),
    }
}

/// The range that is given so.
fn range_of(fields: Fields) -> CellRange
    ensures { result ≡ range_of fields }
{
    CellRange {
        from: fields.from.unwrap_or(0),
        to: fields.to.unwrap_or(u64::MAX),
        limit: fields.limit.unwrap_or(USUAL_LIMIT),
    }
}

/// Whether there may be cells in the range, and a limit that is kept.
fn is_fair(range: &CellRange) -> bool
    ensures { result ≡ is_fair range.now }
{
    range.from <= range.to && 1 <= range.limit && range.limit <= MOST_LIMIT
}

/// The range that a query asks for.
pub(crate) fn range_in(query: Option<&[u8]>) -> Option<CellRange>
    ensures { result ≡ range_in (option_copied query.entry) }
{
    let range = range_of(fields_in(query)?);
    if is_fair(&range) { Some(range) } else { None }
}
