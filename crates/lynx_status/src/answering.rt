//! What is answered to what is asked for.
ghost use Rattle.std.specs.Prelude.{IfOk, Option};
ghost use Rattle.lynx_status.specs.declared.chain.ChainFigures.{ChainFigures as Chain};
ghost use Rattle.lynx_status.specs.declared.figures.Figures.{Figures as Told};
ghost use Rattle.lynx_status.specs.Health.{health_status, health_text};
ghost use Rattle.lynx_status.specs.Metrics.{metrics_text};
ghost use Rattle.lynx_status.specs.SetHash.{set_hash};
ghost use Rattle.lynx_status.specs.Replies.{IsChainReply, IsPage, IsReply, Replies};

use crate::asking::{Asked, Refusal};
use crate::chain::chain_json;
use crate::hashing::set_hash;
use crate::health::health_text;
use crate::metrics::metrics_text;
use crate::page::page_text;
use crate::reply::{Content, Reply};
use crate::watched::Watched;
use http::StatusCode;
use lynx_names::{ChainId, Memory};
use std::alloc::Global;

fn health<W: Watched>(alloc: Global, watched: &mut W) -> Result<Reply, Memory>
    ensures { IfOk result (λ reply. (figures : Told) × W.tells watched.old figures watched.new
        × IsReply (health_status figures.servers.items figures.copies.items) Content.Text
        (health_text figures.servers.items figures.copies.items) reply) }
{
    let figures = watched.figures()?;
    let body = health_text(alloc, &figures)?;
    let status = if figures.is_well() {
        StatusCode::OK
    } else {
        StatusCode::SERVICE_UNAVAILABLE
    };
    Ok(Reply {
        status,
        content: Content::Text,
        body,
    })
}

fn metrics<W: Watched>(alloc: Global, watched: &mut W, version: &str) -> Result<Reply, Memory>
    ensures { IfOk result (λ reply. (figures : Told) × W.tells watched.old figures watched.new
        × IsReply 200 Content.Metrics
        (metrics_text figures (set_hash (W.set_of watched.new)) version.now) reply) }
{
    let figures = watched.figures()?;
    let hash = set_hash(watched.set_text());
    Ok(Reply {
        status: StatusCode::OK,
        content: Content::Metrics,
        body: metrics_text(alloc, &figures, hash, version)?,
    })
}

fn page<W: Watched>(alloc: Global, watched: &mut W) -> Result<Reply, Memory>
    ensures { IfOk result IsPage }
{
    let figures = watched.figures()?;
    let recent = watched.recent()?;
    Ok(Reply {
        status: StatusCode::OK,
        content: Content::Page,
        body: page_text(alloc, &figures, recent.as_slice())?,
    })
}

fn set<W: Watched>(alloc: Global, watched: &W) -> Result<Reply, Memory>
    ensures { IfOk result (IsReply 200 Content.Text (W.set_of watched.now)) }
{
    Ok(Reply {
        status: StatusCode::OK,
        content: Content::Text,
        body: Vec::from_slice(alloc, watched.set_text())?,
    })
}

fn chain<W: Watched>(alloc: Global, watched: &mut W, asked: ChainId) -> Result<Reply, Memory>
    ensures { IfOk result (λ reply. (found : Option Chain)
        × W.finds watched.old asked found watched.new × IsChainReply found reply) }
{
    match watched.chain(asked)? {
        Some(chain) => Ok(Reply {
            status: StatusCode::OK,
            content: Content::Json,
            body: chain_json(alloc, &chain)?,
        }),
        None => Reply::refusing(alloc, Refusal::NotFound),
    }
}

/// What is answered to what is asked for.
pub(crate) fn reply_to<W: Watched>(
    alloc: Global,
    watched: &mut W,
    version: &str,
    question: Result<Asked, Refusal>,
) -> Result<Reply, Memory>
    ensures { IfOk result (λ reply. Replies W.tells W.finds W.set_of version.now watched.old
        question reply watched.new) }
{
    match question {
        Ok(Asked::Health) => health(alloc, watched),
        Ok(Asked::Metrics) => metrics(alloc, watched, version),
        Ok(Asked::Status) => page(alloc, watched),
        Ok(Asked::Set) => set(alloc, watched),
        Ok(Asked::Chain(asked)) => chain(alloc, watched, asked),
        Err(why) => Reply::refusing(alloc, why),
    }
}
