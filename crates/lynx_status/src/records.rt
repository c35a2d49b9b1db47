//! What became of a request, and what a chain did, in JSON.
ghost use Rattle.std.specs.Prelude.{◌≡◌, ◌++◌, IfOk, OnOk};
ghost use Rattle.std.specs.String.{string_bytes};
ghost use Rattle.lynx_status.specs.Records.{asked_json, chain_record_json, client_json, is_owed, name_json, outcome_json, owed_hops, record_head, record_json, records_json, request_json};

use crate::chain::{HopFigures, put_hops, put_values};
use lynx_lex::name::Name;
use lynx_names::{ChainId, ClientId, Memory, ServerId, Stamp, Values};
use std::alloc::{AllocError, Global};
use std::fmt::Write as _;

/// An entry that records a request.
#[derive(Debug, Drop)]
pub struct RecordFigures {
    pub server: ServerId,
    pub stamp: Stamp,
    /// The name of the program that was asked for.
    pub program: Name,
    pub args: Values,
    pub outcome: RecordOutcome,
}

/// What came of a request.
#[derive(Debug, Drop)]
pub enum RecordOutcome {
    /// That chain began, and its first hop gave these results.
    Begun { chain: ChainId, results: Values },
    /// The need of that number wasn't met, counted from 0.
    Refused { need: u8 },
}

/// What there is of a request that is looked up.
#[derive(Debug, Drop)]
pub enum RecordsFound {
    /// No server has a record that is settled, and one stopped, which may have one that isn't.
    Stopped,
    /// The entries that record it, by server.
    Found(Vec<RecordFigures>),
}

/// What a chain did, and for whom.
#[derive(Debug, Drop)]
pub struct ChainRecord {
    pub chain: ChainId,
    pub client: ClientId,
    pub number: u64,
    /// The name of its program.
    pub program: Name,
    pub args: Values,
    /// The hops of its program, in order.
    pub hops: Vec<HopFigures>,
}

fn put_record_head(text: &mut String, server: ServerId, stamp: Stamp) -> Result<(), AllocError>
    ensures { OnOk result (string_bytes text.new
        ≡ string_bytes text.old ++ record_head server stamp) }
{
    write!(text, "{{\"server\":\"{server}\",\"stamp\":\"{stamp}\"")?;
    Ok(())
}

fn put_asked(text: &mut String, program: &Name, args: &Values) -> Result<(), AllocError>
    ensures { OnOk result (string_bytes text.new
        ≡ string_bytes text.old ++ asked_json program.now args.now) }
{
    write!(text, ",\"program\":\"{program}\",\"args\":[")?;
    put_values(text, args.as_slice())?;
    text.push_str("]")?;
    Ok(())
}

fn put_outcome(text: &mut String, outcome: &RecordOutcome) -> Result<(), AllocError>
    ensures { OnOk result (string_bytes text.new
        ≡ string_bytes text.old ++ outcome_json outcome.now) }
{
    match outcome {
        RecordOutcome::Begun { chain, results } => {
            write!(text, ",\"chain\":\"{chain}\",\"results\":[")?;
            put_values(text, results.as_slice())?;
            text.push_str("]")?;
        }
        RecordOutcome::Refused { need } => write!(text, ",\"refused\":\"{need}\"")?,
    }
    Ok(())
}

fn put_record(text: &mut String, record: &RecordFigures) -> Result<(), AllocError>
    ensures { OnOk result (string_bytes text.new
        ≡ string_bytes text.old ++ record_json record.now) }
{
    put_record_head(text, record.server, record.stamp)?;
    put_asked(text, &record.program, &record.args)?;
    put_outcome(text, &record.outcome)?;
    text.push_str("}")?;
    Ok(())
}

/// Adds records with commas between them.
fn put_records(text: &mut String, records: &[RecordFigures]) -> Result<(), AllocError>
    ensures { OnOk result (string_bytes text.new
        ≡ string_bytes text.old ++ records_json records.now) }
{
    let Some((first, rest)) = records.split_first() else {
        return Ok(());
    };
    put_record(text, first)?;
    for record in rest {
        text.push_str(",")?;
        put_record(text, record)?;
    }
    Ok(())
}

fn put_client(text: &mut String, client: ClientId, number: u64) -> Result<(), AllocError>
    ensures { OnOk result (string_bytes text.new
        ≡ string_bytes text.old ++ client_json client number) }
{
    let client = client.number();
    write!(text, "\"client\":\"{client}\",\"number\":\"{number}\"")?;
    Ok(())
}

/// What became of a request: one line of JSON, in which numbers are strings.
pub fn request_json(
    alloc: Global,
    client: ClientId,
    number: u64,
    records: &[RecordFigures],
) -> Result<Vec<u8>, Memory>
    ensures { IfOk result (λ text. text.items ≡ request_json client number records.now) }
{
    let mut text = String::new(alloc);
    text.push_str("{")?;
    put_client(&mut text, client, number)?;
    text.push_str(",\"records\":[")?;
    put_records(&mut text, records)?;
    text.push_str("]}\n")?;
    Ok(text.into_bytes())
}

/// Whether a hop has no entry.
fn is_owed(hop: &HopFigures) -> bool
    ensures { result ≡ is_owed hop.now }
{
    hop.ran.is_none()
}

/// The numbers of the hops that have no entry.
fn owed_hops(alloc: Global, hops: &[HopFigures]) -> Result<Vec<u64>, AllocError>
    ensures { IfOk result (λ owed. owed.items ≡ owed_hops hops.now) }
{
    let mut owed = Vec::new(alloc);
    for hop in hops {
        if is_owed(hop) {
            owed.push(u64::from(hop.hop))?;
        }
    }
    Ok(owed)
}

fn put_name(text: &mut String, chain: &ChainId) -> Result<(), AllocError>
    ensures { OnOk result (string_bytes text.new ≡ string_bytes text.old ++ name_json chain.now) }
{
    write!(text, "{{\"chain\":\"{chain}\",")?;
    Ok(())
}

/// What a chain did, and for whom: one line of JSON, in which numbers are strings.
pub fn chain_record_json(alloc: Global, record: &ChainRecord) -> Result<Vec<u8>, Memory>
    ensures { IfOk result (λ text. text.items ≡ chain_record_json record.now) }
{
    let owed = owed_hops(alloc, record.hops.as_slice())?;
    let mut text = String::new(alloc);
    put_name(&mut text, &record.chain)?;
    put_client(&mut text, record.client, record.number)?;
    put_asked(&mut text, &record.program, &record.args)?;
    text.push_str(",\"hops\":[")?;
    put_hops(&mut text, record.hops.as_slice())?;
    text.push_str("],\"owed\":[")?;
    put_values(&mut text, owed.as_slice())?;
    text.push_str("]}\n")?;
    Ok(text.into_bytes())
}
