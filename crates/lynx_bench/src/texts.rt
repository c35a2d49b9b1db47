//! The set of a load, and its requests.
//!
//! Server S pays from the account 1000 S into its own account 1000 S + 1, or into that of the
//! server behind it, so that payments of two servers meet only where they add. Of N servers program
//! S pays from server S to the next by two hops, program N + S pays within server S by one, and
//! program 2 N + S fills the account that S pays from.
ghost use Rattle.std.specs.Prelude.{◌≡◌, ◌<◌, ◌≤◌, ◌+◌, ◌*◌, IfOk, length};
ghost use Rattle.lynx_names.specs.declared.limits.TheConstants.{MAX_PARAMETERS};

use crate::fault::Fault;
use crate::shape::set_of;
use lynx_entry::Request;
use lynx_names::{ClientId, Memory, ProgramId, Values};
use lynx_set::ChainSet;
use std::alloc::{AllocError, Global};

/// The first key of a server's shard, which is the account that it pays from.
fn first_key(server: u8) -> u64
    ensures { result ≡ 1000 * server }
{
    1000 * u64::from(server)
}

/// The server behind that one of so many: the first one behind the last.
fn next_of(server: u8, servers: u8) -> u8
    requires { server < servers }
    ensures next { server + 1 < servers → result ≡ server + 1 }
    ensures first { server + 1 ≡ servers → result ≡ 0 }
{
    let next = server + 1;
    if next < servers { next } else { 0 }
}

/// Writes the line of a server's shard.
fn write_shard(text: &mut String, server: u8, servers: u8) -> Result<(), AllocError>
    requires { server < servers }
{
    let first = first_key(server);
    let last = if server + 1 < servers {
        first + 999
    } else {
        u64::MAX
    };
    write!(text, "shard {first} {last} {server}\n")
}

/// Writes a program that pays within a server.
fn write_within(text: &mut String, name: &str, server: u8) -> Result<(), AllocError> {
    let from = first_key(server);
    let to = from + 1;
    write!(
        text,
        "program {name}{server} n\nhop {server}\nget x acct {from}\nneed x >= n\nsub acct {from} n\nadd acct {to} n\nend\n"
    )
}

/// Writes the program that pays from a server to the next. A lone server pays itself in one hop:
/// with a second one there it would be busy until that is done.
fn write_pay(text: &mut String, server: u8, servers: u8) -> Result<(), AllocError>
    requires { server < servers }
{
    let next = next_of(server, servers);
    if next == server {
        return write_within(text, "pay", server);
    }
    let (from, to) = (first_key(server), first_key(next) + 1);
    write!(
        text,
        "program pay{server} n\nhop {server}\nget x acct {from}\nneed x >= n\nsub acct {from} n\nhop {next}\nadd acct {to} n\nend\n"
    )
}

/// Writes the program that fills the account that a server pays from.
fn write_seed(text: &mut String, server: u8) -> Result<(), AllocError> {
    let account = first_key(server);
    write!(
        text,
        "program seed{server} n\nhop {server}\nadd acct {account} n\nend\n"
    )
}

/// Writes the text of the set for so many servers.
fn write_set(text: &mut String, servers: u8) -> Result<(), AllocError> {
    write!(text, "lynx 1\nservers {servers}\ntable acct\n")?;
    for server in 0..servers {
        write_shard(text, server, servers)?;
    }
    for server in 0..servers {
        write_pay(text, server, servers)?;
    }
    for server in 0..servers {
        write_within(text, "move", server)?;
    }
    for server in 0..servers {
        write_seed(text, server)?;
    }
    Ok(())
}

/// The text of the set for so many servers, one at least.
pub(crate) fn set_text(alloc: Global, servers: u8) -> Result<String, AllocError> {
    let mut text = String::new(alloc);
    write_set(&mut text, servers)?;
    Ok(text)
}

/// The set for so many servers, 1 to 16.
pub(crate) fn set_for(alloc: Global, servers: u8) -> Result<Box<ChainSet>, Memory> {
    let text = set_text(alloc, servers)?;
    set_of(alloc, text.as_str())
}

/// The hop in which a payment among so many servers comes to its end.
pub(crate) fn last_hop(servers: u8) -> u8
    ensures alone { servers ≡ 1 → result ≡ 0 }
    ensures among { 1 < servers → result ≡ 1 }
{
    if servers > 1 { 1 } else { 0 }
}

/// A client's request of that number to run a program with an amount.
fn request(
    alloc: Global,
    client: u64,
    number: u64,
    program: u8,
    amount: u64,
) -> Result<Request, Memory>
    ensures { IfOk result (λ request. length request.args ≤ MAX_PARAMETERS) }
{
    let mut args = Values::new(alloc);
    args.push(amount)?;
    Ok(Request {
        client: ClientId::new(client),
        number,
        program: ProgramId::new(program).ok_or(Memory)?,
        args,
    })
}

/// A client's request of that number to pay 1 from that server's account to the next server.
pub(crate) fn payment(
    alloc: Global,
    client: u64,
    number: u64,
    server: u8,
) -> Result<Request, Memory> {
    request(alloc, client, number, server, 1)
}

/// A client's request of that number to pay 1 within that server, of so many.
pub(crate) fn payment_within(
    alloc: Global,
    client: u64,
    number: u64,
    server: u8,
    servers: u8,
) -> Result<Request, Memory> {
    request(alloc, client, number, servers.saturating_add(server), 1)
}

/// A client's request of that number to fill that server's account, of so many servers.
pub(crate) fn seed(
    alloc: Global,
    client: u64,
    number: u64,
    server: u8,
    servers: u8,
    amount: u64,
) -> Result<Request, Memory>
    ensures { IfOk result (λ request. length request.args ≤ MAX_PARAMETERS) }
{
    let program = servers.saturating_mul(2).saturating_add(server);
    request(alloc, client, number, program, amount)
}
