//! What befell messages on their way.
ghost use Rattle.std.specs.Prelude.{◌≡◌, ◌++◌, [], IfOk, OnOk};
ghost use Rattle.std.specs.List.{cons_option, list_any};
ghost use Rattle.lynx_chart.specs.Fates.{fate_of, fate_word, fates_of, fates_text, is_again, is_drop, is_hold, is_loss, is_of, notice_of, notices_of};

use lynx_entry::{Delivered, Outcome};
use lynx_names::{ChainId, Memory};
use std::alloc::Global;

/// What may befall a message.
#[derive(Clone, Copy)]
pub(crate) enum Fate {
    Lost,
    /// Its server held as many as it may.
    Dropped,
    Held,
    /// It came once more, after its hop had run.
    Again,
}

/// What an outcome says of the message of a hop.
#[derive(Clone, Copy)]
pub(crate) struct Notice {
    pub chain: ChainId,
    pub hop: u8,
    pub fate: Fate,
}

/// What befell a message on its way.
#[derive(Clone, Copy)]
pub(crate) struct Fates {
    pub lost: bool,
    pub dropped: bool,
    pub held: bool,
    pub again: bool,
}

/// What befell a message that was delivered, if anything did.
fn fate_of(delivered: &Delivered) -> Option<Fate>
    ensures { result ≡ fate_of delivered.now }
{
    match delivered {
        Delivered::Held => Some(Fate::Held),
        Delivered::Dropped => Some(Fate::Dropped),
        Delivered::Repeat { .. } => Some(Fate::Again),
        _ => None,
    }
}

/// What an outcome says of a message, if it does.
fn notice_of(outcome: &Outcome) -> Option<Notice>
    ensures { result ≡ notice_of outcome.now }
{
    let (chain, hop, fate) = match outcome {
        Outcome::LostNow { chain, hop } => (*chain, *hop, Fate::Lost),
        Outcome::Delivered {
            chain,
            hop,
            delivered,
        } => (*chain, *hop, fate_of(delivered)?),
        _ => return None,
    };
    Some(Notice { chain, hop, fate })
}

/// Adds what an outcome says of a message, if it does.
fn add_notice(notices: &mut Vec<Notice>, outcome: &Outcome) -> Result<(), Memory>
    ensures { OnOk result (notices.new.items ≡ notices.old.items
        ++ cons_option (notice_of outcome.now) []) }
{
    if let Some(notice) = notice_of(outcome) {
        notices.push(notice)?;
    }
    Ok(())
}

/// What the outcomes say of messages.
pub(crate) fn notices_of(alloc: Global, outcomes: &[Outcome]) -> Result<Vec<Notice>, Memory>
    ensures { IfOk result (λ notices. notices.items ≡ notices_of outcomes.now) }
{
    let mut notices = Vec::new(alloc);
    for outcome in outcomes {
        add_notice(&mut notices, outcome)?;
    }
    Ok(notices)
}

/// Whether it is of that hop of the chain.
fn is_of(chain: &ChainId, hop: u8, notice: &Notice) -> bool
    ensures { result ≡ is_of chain.now hop notice.now }
{
    notice.chain == *chain && notice.hop == hop
}

fn is_loss(chain: &ChainId, hop: u8, notice: &Notice) -> bool
    ensures { result ≡ is_loss chain.now hop notice.now }
{
    is_of(chain, hop, notice) && matches!(notice.fate, Fate::Lost)
}

fn is_drop(chain: &ChainId, hop: u8, notice: &Notice) -> bool
    ensures { result ≡ is_drop chain.now hop notice.now }
{
    is_of(chain, hop, notice) && matches!(notice.fate, Fate::Dropped)
}

fn is_hold(chain: &ChainId, hop: u8, notice: &Notice) -> bool
    ensures { result ≡ is_hold chain.now hop notice.now }
{
    is_of(chain, hop, notice) && matches!(notice.fate, Fate::Held)
}

fn is_again(chain: &ChainId, hop: u8, notice: &Notice) -> bool
    ensures { result ≡ is_again chain.now hop notice.now }
{
    is_of(chain, hop, notice) && matches!(notice.fate, Fate::Again)
}

fn any_loss(notices: &[Notice], chain: &ChainId, hop: u8) -> bool
    ensures { result ≡ list_any (is_loss chain.now hop) notices.now }
{
    notices.iter().any(|notice| is_loss(chain, hop, notice))
}

fn any_drop(notices: &[Notice], chain: &ChainId, hop: u8) -> bool
    ensures { result ≡ list_any (is_drop chain.now hop) notices.now }
{
    notices.iter().any(|notice| is_drop(chain, hop, notice))
}

fn any_hold(notices: &[Notice], chain: &ChainId, hop: u8) -> bool
    ensures { result ≡ list_any (is_hold chain.now hop) notices.now }
{
    notices.iter().any(|notice| is_hold(chain, hop, notice))
}

fn any_again(notices: &[Notice], chain: &ChainId, hop: u8) -> bool
    ensures { result ≡ list_any (is_again chain.now hop) notices.now }
{
    notices.iter().any(|notice| is_again(chain, hop, notice))
}

/// What befell the message of a hop.
pub(crate) fn fates_of(notices: &[Notice], chain: &ChainId, hop: u8) -> Fates
    ensures { result ≡ fates_of notices.now chain.now hop }
{
    Fates {
        lost: any_loss(notices, chain, hop),
        dropped: any_drop(notices, chain, hop),
        held: any_hold(notices, chain, hop),
        again: any_again(notices, chain, hop),
    }
}

fn put_fate(out: &mut Vec<u8>, befell: bool, word: &[u8]) -> Result<(), Memory>
    ensures { OnOk result (out.new.items ≡ out.old.items ++ fate_word befell word.now) }
{
    if befell {
        out.extend_from_slice(word)?;
    }
    Ok(())
}

/// Writes a word for each.
pub(crate) fn put_fates(out: &mut Vec<u8>, fates: &Fates) -> Result<(), Memory>
    ensures { OnOk result (out.new.items ≡ out.old.items ++ fates_text fates.now) }
{
    put_fate(out, fates.lost, b" lost")?;
    put_fate(out, fates.dropped, b" dropped")?;
    put_fate(out, fates.held, b" held")?;
    put_fate(out, fates.again, b" again")
}
