//! The columns of a row.
ghost use Rattle.std.specs.Prelude.{◌≡◌, ◌≢◌, ◌↔◌, ◌<◌, ◌^◌, ℕ, List, pos, IsTrue, IfNone, IfSome};
ghost use Rattle.lynx_names.specs.declared.limits.TheConstants.{MAX_TABLES};
ghost use Rattle.std.specs.Int.{w64, to_be_bytes};
ghost use Rattle.sqlite_value.specs.declared.value.Value.TheVariants.{Int, Text, Blob};
ghost use Rattle.sqlite_value.specs.Order.{column};
ghost use Rattle.sqlite_value.specs.Value.{owned};

use lynx_names::TableId;
use sqlite::Row;
use sqlite::types::ValueRef;

fn is_that_number(value: ValueRef<'_>, number: u32) -> bool
    ensures { IsTrue result ↔ (owned value.entry ≡ Int (pos number)) }
{
    match value {
        ValueRef::Int(n) => n == i64::from(number),
        _ => false,
    }
}

fn is_that_text(value: ValueRef<'_>, text: &[u8]) -> bool
    ensures { IsTrue result ↔ (owned value.entry ≡ Text text.now) }
{
    match value {
        ValueRef::Text(bytes) => bytes == text,
        _ => false,
    }
}

fn are_those_bytes(value: ValueRef<'_>, bytes: &[u8]) -> bool
    ensures { IsTrue result ↔ (owned value.entry ≡ Blob bytes.now) }
{
    match value {
        ValueRef::Blob(own) => own == bytes,
        _ => false,
    }
}

/// Whether a column has that number.
pub fn is_number(row: &Row, at: usize, number: u32) -> bool
    ensures { IsTrue result ↔ (column row.now at ≡ Int (pos number)) }
{
    match row.get_ref(at) {
        Ok(value) => is_that_number(value, number),
        Err(_) => false,
    }
}

/// Whether a column has that text.
pub fn is_text(row: &Row, at: usize, text: &[u8]) -> bool
    ensures { IsTrue result ↔ (column row.now at ≡ Text text.now) }
{
    match row.get_ref(at) {
        Ok(value) => is_that_text(value, text),
        Err(_) => false,
    }
}

/// The text of a column, None where it holds no text.
pub fn text_in(row: &Row, at: usize) -> Option<&[u8]>
    ensures some { IfSome result (λ text. column row.now at ≡ Text text.now) }
    ensures none { IfNone result ((text : List ℕ) → column row.now at ≢ Text text) }
{
    match row.get_ref(at) {
        Ok(ValueRef::Text(bytes)) => Some(bytes),
        _ => None,
    }
}

/// The number that eight bytes spell, the greatest first. None where they are no eight.
fn spelled(bytes: &[u8]) -> Option<u64>
    ensures some { IfSome result (λ number. bytes.now ≡ to_be_bytes w64 number) }
    ensures none { IfNone result ((number : ℕ) → number < 2 ^ 64
        → bytes.now ≢ to_be_bytes w64 number) }
{
    let [a, b, c, d, e, f, g, h] = bytes else {
        return None;
    };
    let number = u64::from_be_bytes([*a, *b, *c, *d, *e, *f, *g, *h]);
    if number.to_be_bytes().as_slice() == bytes {
        Some(number)
    } else {
        None
    }
}

/// The number that a column's bytes spell, None where it holds no such bytes.
pub fn number_in(row: &Row, at: usize) -> Option<u64>
    ensures some { IfSome result (λ number. column row.now at ≡ Blob (to_be_bytes w64 number)) }
    ensures none { IfNone result ((number : ℕ) → number < 2 ^ 64
        → column row.now at ≢ Blob (to_be_bytes w64 number)) }
{
    match row.get_ref(at) {
        Ok(ValueRef::Blob(bytes)) => spelled(bytes),
        _ => None,
    }
}

/// Whether a column's bytes spell that number.
pub fn is_spelled(row: &Row, at: usize, number: u64) -> bool
    ensures { IsTrue result ↔ (column row.now at ≡ Blob (to_be_bytes w64 number)) }
{
    match row.get_ref(at) {
        Ok(value) => are_those_bytes(value, number.to_be_bytes().as_slice()),
        Err(_) => false,
    }
}

/// The table that a column names, None where it names none.
pub fn table_in(row: &Row, at: usize) -> Option<TableId>
    ensures some { IfSome result
        (λ table. (column row.now at ≡ Int (pos table)) × (table < MAX_TABLES)) }
    ensures none { IfNone result ((table : ℕ) → table < MAX_TABLES
        → column row.now at ≢ Int (pos table)) }
{
    match row.get_ref(at) {
        Ok(ValueRef::Int(n)) => TableId::new(u8::try_from(n).ok()?),
        _ => None,
    }
}
