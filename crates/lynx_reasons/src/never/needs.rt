//! Needs of two numbers.
ghost use Rattle.std.specs.Prelude.{◌≡◌};
ghost use Rattle.lynx_hops.specs.Meaning.{is_met};
ghost use Rattle.lynx_reasons.specs.Begins.{is_false};

use lynx_set::{Operand, Relation};

/// Whether the relation holds between the numbers.
fn is_met(relation: Relation, left: u64, right: u64) -> bool
    ensures { result ≡ is_met relation left right }
{
    match relation {
        Relation::Below => left < right,
        Relation::AtMost => left <= right,
        Relation::Same => left == right,
        Relation::Differs => left != right,
        Relation::AtLeast => left >= right,
        Relation::Above => left > right,
    }
}

/// Whether both values are numbers, and the relation doesn't hold between them.
pub(crate) fn is_false(left: Operand, relation: Relation, right: Operand) -> bool
    ensures { result ≡ is_false left relation right }
{
    match (left, right) {
        (Operand::Number(left), Operand::Number(right)) => !is_met(relation, left, right),
        _ => false,
    }
}
