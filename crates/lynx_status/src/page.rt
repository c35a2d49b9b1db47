//! The page for people.
use crate::chart::put_chart;
use crate::figures::Figures;
use crate::recent::RecentEntry;
use crate::script::SCRIPT;
use crate::style::{BEFORE, BEHIND, MAIN_END};
use crate::tables::{put_servers, put_totals};
use lynx_names::Memory;
use std::alloc::{AllocError, Global};

/// How many entries are shown, at most.
const MAX_SHOWN: usize = 100;

/// The last of the entries: so many at most as are shown.
fn shown(recent: &[RecentEntry]) -> &[RecentEntry] {
    &recent[recent.len().saturating_sub(MAX_SHOWN)..]
}

/// The main part of the page.
fn main_text(
    alloc: Global,
    figures: &Figures,
    recent: &[RecentEntry],
) -> Result<String, AllocError> {
    let servers = figures.servers.as_slice();
    let mut text = String::new(alloc);
    put_totals(&mut text, figures)?;
    put_servers(&mut text, servers)?;
    text.push_str("<h2>The last entries</h2>\n")?;
    put_chart(alloc, &mut text, servers, shown(recent))?;
    Ok(text)
}

/// The page that tells the figures and the last of the entries, a hundred at most, whose stamps
/// rise. It needs nothing from elsewhere, and fetches itself and `/chain/ORIGIN:INDEX`.
pub fn page_text(
    alloc: Global,
    figures: &Figures,
    recent: &[RecentEntry],
) -> Result<Vec<u8>, Memory> {
    let main = main_text(alloc, figures, recent)?;
    let mut text = Vec::new(alloc);
    text.extend_from_slice(BEFORE)?;
    text.extend_from_slice(main.as_bytes())?;
    text.extend_from_slice(MAIN_END)?;
    text.extend_from_slice(SCRIPT)?;
    text.extend_from_slice(BEHIND)?;
    Ok(text)
}
