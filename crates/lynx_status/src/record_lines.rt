//! What became of a request, and what a chain did, in lines.
ghost use Rattle.std.specs.Prelude.{◌≡◌, ◌++◌, IfOk, OnOk};
ghost use Rattle.std.specs.List.{flat_map};
ghost use Rattle.std.specs.String.{string_bytes};
ghost use Rattle.lynx_status.specs.RecordLines.{chain_body, chain_lines, head_line, hop_line, outcome_text, ran_text, record_line, request_body, request_lines, server_text};

use crate::chain::{HopFigures, RanHop};
use crate::records::{ChainRecord, RecordFigures, RecordOutcome, chain_record_json, request_json};
use crate::shapes::Shape;
use lynx_lines::{push_asked, push_begun, push_client, push_hop, push_hop_done, push_refused};
use lynx_names::{ChainId, ClientId, Memory, ServerId, Stamp};
use std::alloc::{AllocError, Global};
use std::fmt::Write as _;

fn put_outcome(text: &mut String, stamp: Stamp, outcome: &RecordOutcome) -> Result<(), AllocError>
    ensures { OnOk result (string_bytes text.new
        ≡ string_bytes text.old ++ outcome_text stamp outcome.now) }
{
    match outcome {
        RecordOutcome::Begun { chain, results } => {
            push_begun(text, chain, stamp, results.as_slice())
        }
        RecordOutcome::Refused { need } => push_refused(text, *need, stamp),
    }
}

fn put_server(text: &mut String, server: ServerId) -> Result<(), AllocError>
    ensures { OnOk result (string_bytes text.new ≡ string_bytes text.old ++ server_text server) }
{
    write!(text, " server {server}")
}

/// The line of a record.
fn record_line(
    alloc: Global,
    client: ClientId,
    number: u64,
    record: &RecordFigures,
) -> Result<Vec<u8>, Memory>
    ensures { IfOk result (λ line. line.items ≡ record_line client number record.now) }
{
    let mut front = String::new(alloc);
    put_outcome(&mut front, record.stamp, &record.outcome)?;
    push_client(&mut front, client, number)?;
    let mut line = front.into_bytes();
    push_asked(
        alloc,
        &mut line,
        record.program.as_bytes(),
        record.args.as_slice(),
    )?;
    let mut last = String::new(alloc);
    put_server(&mut last, record.server)?;
    last.push_str("\n")?;
    line.extend_from_slice(last.as_bytes())?;
    Ok(line)
}

/// A line for each record of a request.
fn request_lines(
    alloc: Global,
    client: ClientId,
    number: u64,
    records: &[RecordFigures],
) -> Result<Vec<u8>, Memory>
    ensures { IfOk result (λ text. text.items ≡ request_lines client number records.now) }
{
    let mut text = Vec::new(alloc);
    for record in records {
        let line = record_line(alloc, client, number, record)?;
        text.extend_from_slice(line.as_slice())?;
    }
    Ok(text)
}

fn put_ran(
    text: &mut String,
    chain: &ChainId,
    hop: u8,
    ran: &Option<RanHop>,
) -> Result<(), AllocError>
    ensures { OnOk result (string_bytes text.new
        ≡ string_bytes text.old ++ ran_text chain.now hop ran.now) }
{
    match ran {
        Some(ran) => push_hop_done(text, "hop", chain, hop, ran.stamp, ran.results.as_slice()),
        None => push_hop(text, "owed", chain, hop),
    }
}

/// The line of a hop.
fn hop_line(alloc: Global, chain: &ChainId, hop: &HopFigures) -> Result<String, AllocError>
    ensures { IfOk result (λ line. string_bytes line ≡ hop_line chain.now hop.now) }
{
    let mut line = String::new(alloc);
    put_ran(&mut line, chain, hop.hop, &hop.ran)?;
    put_server(&mut line, hop.server)?;
    line.push_str("\n")?;
    Ok(line)
}

/// A line for each hop of a chain.
fn put_hops(
    alloc: Global,
    text: &mut Vec<u8>,
    chain: &ChainId,
    hops: &[HopFigures],
) -> Result<(), Memory>
    ensures { OnOk result (text.new.items
        ≡ text.old.items ++ flat_map (hop_line chain.now) hops.now) }
{
    for hop in hops {
        let line = hop_line(alloc, chain, hop)?;
        text.extend_from_slice(line.as_bytes())?;
    }
    Ok(())
}

/// The line of a chain.
fn head_line(alloc: Global, record: &ChainRecord) -> Result<Vec<u8>, Memory>
    ensures { IfOk result (λ line. line.items ≡ head_line record.now) }
{
    let chain = &record.chain;
    let mut front = String::new(alloc);
    write!(front, "chain {chain}")?;
    push_client(&mut front, record.client, record.number)?;
    let mut line = front.into_bytes();
    push_asked(
        alloc,
        &mut line,
        record.program.as_bytes(),
        record.args.as_slice(),
    )?;
    line.push(b'\n')?;
    Ok(line)
}

/// What a chain did, and for whom: a line, and one for each of its hops.
fn chain_lines(alloc: Global, record: &ChainRecord) -> Result<Vec<u8>, Memory>
    ensures { IfOk result (λ text. text.items ≡ chain_lines record.now) }
{
    let mut text = head_line(alloc, record)?;
    put_hops(alloc, &mut text, &record.chain, record.hops.as_slice())?;
    Ok(text)
}

/// What became of a request.
pub(crate) fn request_body(
    alloc: Global,
    shape: Shape,
    client: ClientId,
    number: u64,
    records: &[RecordFigures],
) -> Result<Vec<u8>, Memory>
    ensures { IfOk result (λ text. text.items ≡ request_body shape client number records.now) }
{
    match shape {
        Shape::Json => request_json(alloc, client, number, records),
        Shape::Lines => request_lines(alloc, client, number, records),
    }
}

/// What a chain did, and for whom.
pub(crate) fn chain_body(
    alloc: Global,
    shape: Shape,
    record: &ChainRecord,
) -> Result<Vec<u8>, Memory>
    ensures { IfOk result (λ text. text.items ≡ chain_body shape record.now) }
{
    match shape {
        Shape::Json => chain_record_json(alloc, record),
        Shape::Lines => chain_lines(alloc, record),
    }
}
