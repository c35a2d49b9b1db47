//! The last entries as a picture in SVG: a column for each server, a row for each stamp.
ghost use Rattle.std.specs.Prelude.{◌≤◌};

use crate::figures::ServerFigures;
use crate::recent::{RecentEntry, RecentKind};
use lynx_names::{ChainId, ServerId};
use std::alloc::{AllocError, Global};
use std::fmt::Write as _;

/// How wide a column is; the width of what stands before the first.
const COLUMN: u32 = 160;

const GUTTER: u32 = 72;

/// How high a row is; the height of what stands above the first.
const ROW: u32 = 46;

const HEAD: u32 = 36;

/// How many colours there are for chains.
const HUES: u64 = 6;

/// An entry and the row in which its box stands.
#[derive(Clone, Copy)]
struct Boxed {
    entry: RecentEntry,
    row: u8,
}

/// The left side of a server's boxes.
fn left_of(server: ServerId) -> u32
    ensures { result ≤ 10000 }
{
    GUTTER + COLUMN * u32::from(server.number())
}

/// The upper side of a row's boxes.
fn top_of(row: u8) -> u32
    ensures { result ≤ 20000 }
{
    HEAD + ROW * u32::from(row)
}

/// The chain of an entry, None where it refused.
fn chain_of(entry: &RecentEntry) -> Option<ChainId> {
    match entry.kind {
        RecentKind::Begun(chain) => Some(chain),
        RecentKind::Refused => None,
        RecentKind::Hop { chain, .. } => Some(chain),
    }
}

/// Which colour a chain has.
fn hue_of(chain: &ChainId) -> u64 {
    chain.index % HUES
}

/// The entries with their rows: those of one stamp, one behind the other, share one.
fn boxes_of(alloc: Global, recent: &[RecentEntry]) -> Result<Vec<Boxed>, AllocError> {
    let mut boxes = Vec::with_capacity(alloc, recent.len())?;
    let mut row: u8 = 0;
    let mut last = None;
    for entry in recent {
        if let Some(stamp) = last {
            if stamp != entry.stamp {
                row = row.saturating_add(1);
            }
        }
        last = Some(entry.stamp);
        boxes.push(Boxed { entry: *entry, row })?;
    }
    Ok(boxes)
}

/// Adds the tips of arrows, one for each colour.
fn put_tips(text: &mut String) -> Result<(), AllocError> {
    text.push_str("<defs>\n")?;
    for hue in 0..HUES {
        write!(
            text,
            "<marker id=\"tip{hue}\" class=\"hue{hue}\" viewBox=\"0 0 8 8\" refX=\"7\" "
        )?;
        text.push_str("refY=\"4\" markerWidth=\"8\" markerHeight=\"8\" ")?;
        text.push_str("orient=\"auto\"><path d=\"M0,0L8,4L0,8z\"/></marker>\n")?;
    }
    text.push_str("</defs>\n")
}

/// Adds the line down a server's column, and its head above and below.
fn put_column(text: &mut String, server: ServerId, bottom: u32) -> Result<(), AllocError> {
    let middle = left_of(server) + 74;
    let foot = bottom.saturating_add(20);
    write!(
        text,
        "<path class=\"column\" d=\"M{middle},28V{bottom}\"/>\n"
    )?;
    write!(
        text,
        "<text class=\"quiet\" x=\"{middle}\" y=\"20\" text-anchor=\"middle\">"
    )?;
    write!(text, "server {server}</text>\n")?;
    write!(
        text,
        "<text class=\"quiet\" x=\"{middle}\" y=\"{foot}\" text-anchor=\"middle\">"
    )?;
    write!(text, "server {server}</text>\n")
}

/// Adds the arrow from an earlier entry of a chain to a later one.
fn put_arrow(
    text: &mut String,
    chain: &ChainId,
    from: &Boxed,
    to: &Boxed,
) -> Result<(), AllocError> {
    let hue = hue_of(chain);
    let (x, y) = (left_of(from.entry.server) + 74, top_of(from.row) + 34);
    let (to_x, to_y) = (left_of(to.entry.server) + 74, top_of(to.row));
    let half = y.midpoint(to_y);
    write!(
        text,
        "<path class=\"hue{hue}\" marker-end=\"url(#tip{hue})\" d=\"M{x},{y}"
    )?;
    write!(text, "C{x},{half} {to_x},{half} {to_x},{to_y}\"/>\n")
}

/// The last of the entries that is of the chain.
fn last_of<'a>(boxes: &'a [Boxed], chain: &ChainId) -> Option<&'a Boxed> {
    boxes
        .iter()
        .rev()
        .find(|boxed| chain_of(&boxed.entry) == Some(*chain))
}

/// Adds an arrow to an entry from the one before it of its chain, where there is one.
fn put_arrow_to(text: &mut String, earlier: &[Boxed], later: &Boxed) -> Result<(), AllocError> {
    if let Some(chain) = chain_of(&later.entry) {
        if let Some(from) = last_of(earlier, &chain) {
            put_arrow(text, &chain, from, later)?;
        }
    }
    Ok(())
}

/// Adds the arrows between the entries of each chain.
fn put_arrows(text: &mut String, boxes: &[Boxed]) -> Result<(), AllocError> {
    for (place, later) in boxes.iter().enumerate() {
        put_arrow_to(text, &boxes[..place], later)?;
    }
    Ok(())
}

/// Adds what kind of box it is, and its first line.
fn put_kind(text: &mut String, entry: &RecentEntry) -> Result<(), AllocError> {
    let lines =
        "<rect x=\".5\" y=\".5\" width=\"147\" height=\"33\" rx=\"4\"/><svg x=\"8\" width=\"136\"><text y=\"14\">";
    match entry.kind {
        RecentKind::Begun(chain) => {
            let hue = hue_of(&chain);
            write!(
                text,
                "class=\"hue{hue}\" data-chain=\"{chain}\">{lines}{chain} hop 0"
            )
        }
        RecentKind::Hop { chain, hop } => {
            let hue = hue_of(&chain);
            write!(
                text,
                "class=\"hue{hue}\" data-chain=\"{chain}\">{lines}{chain} hop {hop}"
            )
        }
        RecentKind::Refused => write!(text, "class=\"refused\">{lines}refused"),
    }
}

/// Adds the box of an entry.
fn put_box(text: &mut String, boxed: &Boxed) -> Result<(), AllocError> {
    let entry = &boxed.entry;
    let (left, top) = (left_of(entry.server), top_of(boxed.row));
    let (program, stamp) = (entry.program, entry.stamp);
    write!(
        text,
        "<svg x=\"{left}\" y=\"{top}\" width=\"148\" height=\"34\" "
    )?;
    put_kind(text, entry)?;
    write!(
        text,
        "</text><text class=\"quiet\" y=\"28\">{program}</text></svg>"
    )?;
    write!(text, "<title>stamp {stamp}</title></svg>\n")
}

/// Adds the stamp of a row, before it.
fn put_stamp(text: &mut String, boxed: &Boxed) -> Result<(), AllocError> {
    let (height, stamp) = (top_of(boxed.row) + 21, boxed.entry.stamp);
    write!(
        text,
        "<text class=\"quiet\" x=\"60\" y=\"{height}\" text-anchor=\"end\">"
    )?;
    write!(text, "{stamp}</text>\n")
}

/// Adds the boxes, and a stamp before the first of each row.
fn put_boxes(text: &mut String, boxes: &[Boxed]) -> Result<(), AllocError> {
    let mut last = None;
    for boxed in boxes {
        if last != Some(boxed.row) {
            put_stamp(text, boxed)?;
        }
        last = Some(boxed.row);
        put_box(text, boxed)?;
    }
    Ok(())
}

/// Adds the picture of the entries, the newest at the bottom. Stamps rise.
pub(crate) fn put_chart(
    alloc: Global,
    text: &mut String,
    servers: &[ServerFigures],
    recent: &[RecentEntry],
) -> Result<(), AllocError> {
    let boxes = boxes_of(alloc, recent)?;
    let rows = match boxes.last() {
        Some(last) => last.row.saturating_add(1),
        None => return text.push_str("<p>There is no entry yet.</p>\n"),
    };
    let bottom = top_of(rows);
    let mut right = GUTTER;
    for server in servers {
        right = right.max(left_of(server.server) + COLUMN);
    }
    let height = bottom + 32;
    write!(
        text,
        "<div class=\"chart\" tabindex=\"0\" role=\"region\" aria-label=\"Entries\"><svg width=\"{right}\" height=\"{height}\" "
    )?;
    text.push_str("role=\"img\" aria-label=\"The last entries of each server\">\n")?;
    put_tips(text)?;
    for server in servers {
        put_column(text, server.server, bottom)?;
    }
    put_arrows(text, boxes.as_slice())?;
    put_boxes(text, boxes.as_slice())?;
    text.push_str("</svg></div>\n")
}
