//! The shapes of messages.
ghost use Rattle.std.specs.Prelude.{◌≡◌, ◌++◌, IfOk, OnOk, codes};
ghost use Rattle.lynx_chart.specs.Arrows.{arrow_kind, fate_shapes, is_missed, message_shapes, sent_shapes, told_of, wanted};
ghost use Rattle.lynx_chart.specs.Messages.{owed_box};
ghost use Rattle.lynx_chart.specs.Shapes.{Arrow, Cross, drawn};

use crate::fates::{Fates, Notice, fates_of, put_fates};
use crate::labels::put_hop;
use crate::lines::{put_arrow, put_cross};
use crate::messages::{Sent, put_owed_box};
use lynx_names::Memory;
use lynx_set::ChainSet;
use std::alloc::Global;

/// What an arrow tells: its hop, and what befell its message.
fn told_of(alloc: Global, sent: &Sent, fates: &Fates) -> Result<Vec<u8>, Memory>
    ensures { IfOk result (λ told. told.items ≡ told_of sent.now fates.now) }
{
    let mut told = Vec::new(alloc);
    put_hop(alloc, &mut told, &sent.chain, sent.hop)?;
    put_fates(&mut told, fates)?;
    Ok(told)
}

/// The kind of a message's arrow.
fn arrow_kind(fates: &Fates) -> &'static [u8]
    ensures { result.now ≡ arrow_kind fates.now }
{
    if fates.held {
        b"message held"
    } else {
        b"message"
    }
}

/// Writes the box of the hop, if it is owed.
fn put_owed(alloc: Global, out: &mut Vec<u8>, set: &ChainSet, sent: &Sent) -> Result<(), Memory>
    ensures { OnOk result (out.new.items ≡ out.old.items
        ++ drawn (wanted sent.now.is_owed (owed_box set.now sent.now))) }
{
    if sent.is_owed {
        return put_owed_box(alloc, out, set, sent);
    }
    Ok(())
}

/// Writes a message's arrow once more, thin, if it came again.
fn put_again(
    alloc: Global,
    out: &mut Vec<u8>,
    sent: &Sent,
    again: bool,
    told: &[u8],
) -> Result<(), Memory>
    ensures { OnOk result (out.new.items ≡ out.old.items ++ drawn (wanted again
        (Arrow (codes "message again") sent.now.from sent.now.to 1 told.now))) }
{
    if !again {
        return Ok(());
    }
    let kind = b"message again".as_slice();
    put_arrow(alloc, out, kind, &sent.from, &sent.to, 1, told)?;
    Ok(())
}

/// Writes the cross of a message that was lost or dropped.
fn put_missed(
    alloc: Global,
    out: &mut Vec<u8>,
    sent: &Sent,
    missed: bool,
    told: &[u8],
) -> Result<(), Memory>
    ensures { OnOk result (out.new.items ≡ out.old.items
        ++ drawn (wanted missed (Cross sent.now.from sent.now.to told.now))) }
{
    if missed {
        return put_cross(alloc, out, &sent.from, &sent.to, told);
    }
    Ok(())
}

/// Whether it was lost or dropped.
fn is_missed(fates: &Fates) -> bool
    ensures { result ≡ is_missed fates.now }
{
    fates.lost || fates.dropped
}

/// Writes the arrow of a message that this befell, one more where it came again, and a cross where
/// it was lost or dropped.
fn put_fate_shapes(
    alloc: Global,
    out: &mut Vec<u8>,
    sent: &Sent,
    fates: &Fates,
    told: &[u8],
) -> Result<(), Memory>
    ensures { OnOk result (out.new.items ≡ out.old.items
        ++ drawn (fate_shapes sent.now fates.now told.now)) }
{
    put_arrow(alloc, out, arrow_kind(fates), &sent.from, &sent.to, 0, told)?;
    put_again(alloc, out, sent, fates.again, told)?;
    put_missed(alloc, out, sent, is_missed(fates), told)?;
    Ok(())
}

/// Writes the shapes of a message that this befell.
fn put_sent(
    alloc: Global,
    out: &mut Vec<u8>,
    set: &ChainSet,
    sent: &Sent,
    fates: &Fates,
) -> Result<(), Memory>
    ensures { OnOk result (out.new.items ≡ out.old.items
        ++ drawn (sent_shapes set.now sent.now fates.now)) }
{
    let told = told_of(alloc, sent, fates)?;
    put_owed(alloc, out, set, sent)?;
    put_fate_shapes(alloc, out, sent, fates, told.as_slice())?;
    Ok(())
}

/// Writes the shapes of a message, of which the outcomes said that.
pub(crate) fn put_message(
    alloc: Global,
    out: &mut Vec<u8>,
    set: &ChainSet,
    notices: &[Notice],
    sent: &Sent,
) -> Result<(), Memory>
    ensures { OnOk result (out.new.items ≡ out.old.items
        ++ drawn (message_shapes set.now notices.now sent.now)) }
{
    let fates = fates_of(notices, &sent.chain, sent.hop);
    put_sent(alloc, out, set, sent, &fates)
}
