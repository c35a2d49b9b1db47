//! What sessions are told, by its parts.
use lynx_fixtures::made::{answer, chain, request, server, stamp, values};
use lynx_fixtures::parts::{AnswerParts, RequestParts};
use lynx_names::Memory;
use lynx_weave::ToldItem;
use std::alloc::Global;

#[derive(Clone, Copy)]
pub enum ToldParts {
    /// Server 0 answered the request so.
    Answered(RequestParts, AnswerParts),
    /// That server had the hop of that chain of server 0, with that stamp and these results.
    Seen {
        server: u8,
        index: u64,
        hop: u8,
        time: u64,
        results: &'static [u64],
    },
}

fn told(alloc: Global, parts: ToldParts) -> Result<ToldItem, Memory> {
    match parts {
        ToldParts::Answered(asked, given) => Ok(ToldItem::Answered {
            server: server(0)?,
            request: request(alloc, asked)?,
            answer: answer(alloc, given)?,
        }),
        ToldParts::Seen {
            server: at,
            index,
            hop,
            time,
            results,
        } => Ok(ToldItem::Seen {
            server: server(at)?,
            chain: chain(0, index)?,
            hop,
            stamp: stamp(time)?,
            results: values(alloc, results)?,
        }),
    }
}

/// All that one session is told.
fn session(alloc: Global, parts: &[ToldParts]) -> Result<Vec<ToldItem>, Memory> {
    let mut items = Vec::new(alloc);
    for parts in parts {
        items.push(told(alloc, *parts)?)?;
    }
    Ok(items)
}

/// All that sessions are told.
pub fn sessions(alloc: Global, parts: &[&[ToldParts]]) -> Result<Vec<Vec<ToldItem>>, Memory> {
    let mut sessions = Vec::new(alloc);
    for parts in parts {
        sessions.push(session(alloc, parts)?)?;
    }
    Ok(sessions)
}
