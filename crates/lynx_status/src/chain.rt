//! How far a chain has come, in JSON.
ghost use Rattle.std.specs.Prelude.{◌≡◌, ◌++◌, IfOk, OnOk};
ghost use Rattle.std.specs.String.{string_bytes};
ghost use Rattle.lynx_status.specs.Chains.{chain_json, head_json, hop_head, hop_json, hops_json, ran_json, values_json};

use lynx_lex::name::Name;
use lynx_names::{ChainId, Memory, ServerId, Stamp, Values};
use std::alloc::{AllocError, Global};
use std::fmt::Write as _;

/// How far a chain has come.
#[derive(Debug, Drop)]
pub struct ChainFigures {
    pub chain: ChainId,
    /// The name of its program.
    pub program: Name,
    /// The hops of its program, in order.
    pub hops: Vec<HopFigures>,
}

/// A hop of a chain.
#[derive(Debug, Drop)]
pub struct HopFigures {
    /// Its number, from 0.
    pub hop: u8,
    /// The server at which it runs.
    pub server: ServerId,
    /// What its entry says, None where it is owed.
    pub ran: Option<RanHop>,
}

/// What the entry of a hop says.
#[derive(Debug, Drop)]
pub struct RanHop {
    pub stamp: Stamp,
    pub results: Values,
}

/// Adds values with commas between them.
pub(crate) fn put_values(text: &mut String, values: &[u64]) -> Result<(), AllocError>
    ensures { OnOk result (string_bytes text.new
        ≡ string_bytes text.old ++ values_json values.now) }
{
    let Some((first, rest)) = values.split_first() else {
        return Ok(());
    };
    write!(text, "\"{first}\"")?;
    for value in rest {
        write!(text, ",\"{value}\"")?;
    }
    Ok(())
}

/// Adds what the entry of a hop says, where it has one.
fn put_ran(text: &mut String, ran: &Option<RanHop>) -> Result<(), AllocError>
    ensures { OnOk result (string_bytes text.new ≡ string_bytes text.old ++ ran_json ran.now) }
{
    if let Some(ran) = ran {
        let stamp = ran.stamp;
        write!(text, ",\"stamp\":\"{stamp}\",\"results\":[")?;
        put_values(text, ran.results.as_slice())?;
        text.push_str("]")?;
    }
    Ok(())
}

/// Adds the number and the server of a hop.
fn put_hop_head(text: &mut String, hop: u8, server: ServerId) -> Result<(), AllocError>
    ensures { OnOk result (string_bytes text.new ≡ string_bytes text.old ++ hop_head hop server) }
{
    write!(text, "{{\"hop\":\"{hop}\",\"server\":\"{server}\"")?;
    Ok(())
}

/// Adds a hop.
fn put_hop(text: &mut String, hop: &HopFigures) -> Result<(), AllocError>
    ensures { OnOk result (string_bytes text.new ≡ string_bytes text.old ++ hop_json hop.now) }
{
    put_hop_head(text, hop.hop, hop.server)?;
    put_ran(text, &hop.ran)?;
    text.push_str("}")?;
    Ok(())
}

/// Adds hops with commas between them.
pub(crate) fn put_hops(text: &mut String, hops: &[HopFigures]) -> Result<(), AllocError>
    ensures { OnOk result (string_bytes text.new ≡ string_bytes text.old ++ hops_json hops.now) }
{
    let Some((first, rest)) = hops.split_first() else {
        return Ok(());
    };
    put_hop(text, first)?;
    for hop in rest {
        text.push_str(",")?;
        put_hop(text, hop)?;
    }
    Ok(())
}

/// Adds the chain's own name and that of its program.
fn put_head(text: &mut String, chain: &ChainId, program: &Name) -> Result<(), AllocError>
    ensures { OnOk result (string_bytes text.new
        ≡ string_bytes text.old ++ head_json chain.now program.now) }
{
    write!(
        text,
        "{{\"chain\":\"{chain}\",\"program\":\"{program}\",\"hops\":["
    )?;
    Ok(())
}

/// How far a chain has come: one line of JSON, in which numbers are strings.
pub fn chain_json(alloc: Global, chain: &ChainFigures) -> Result<Vec<u8>, Memory>
    ensures { IfOk result (λ text. text.items ≡ chain_json chain.now) }
{
    let mut text = String::new(alloc);
    put_head(&mut text, &chain.chain, &chain.program)?;
    put_hops(&mut text, chain.hops.as_slice())?;
    text.push_str("]}\n")?;
    Ok(text.into_bytes())
}
