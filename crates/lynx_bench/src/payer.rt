//! The clients of a load, each of which pays in a thread of its own.
ghost use Rattle.std.specs.Prelude.{◌≡◌, ◌<◌, ◌≤◌, ◌*◌, ◌/◌, ◌%◌, ◌↔◌, IsTrue};

use crate::fault::Fault;
use crate::load::Load;
use crate::starting::CountedFrontend;
use crate::texts::{payment, payment_within};
use lynx_cluster::Session;
use lynx_entry::Answer;
use lynx_names::ChainId;
use std::alloc::{AllocFailed, Global};
use std::sync::Wait;
use std::time::Clock;

/// How many of so many servers belong to that client, of so many: each that many behind the one
/// before, from the client's number on. One at least: where there are fewer servers than clients, a
/// server belongs to more than one.
fn homes(client: u8, clients: u8, servers: u8) -> u8
    requires clients { 0 < clients }
    ensures { 0 < result }
{
    match servers.checked_sub(client) {
        Some(left) if left > 0 => left.div_ceil(clients).max(1),
        _ => 1,
    }
}

/// The server that the payment of that number is made from, which belongs to the client: its
/// servers in turn.
fn origin_of(number: u64, client: u8, clients: u8, servers: u8) -> u8
    requires clients { 0 < clients }
    requires servers { 0 < servers }
    ensures { result < servers }
{
    let turn = number % u64::from(homes(client, clients, servers));
    let place = u64::from(client) + u64::from(clients) * turn;
    (place % u64::from(servers)) as u8
}

/// The payment of that number goes to the next server, where so many of a hundred do, spread as
/// evenly as can be.
fn goes_across(number: u64, across: u8) -> bool
    ensures { IsTrue result ↔ (number % 100 * across % 100 < across) }
{
    number % 100 * u64::from(across) % 100 < u64::from(across)
}

/// What the first of so many threads takes of the payments that are left: about as many as each
/// thread behind it.
fn share_of(left: u64, threads: u8) -> u64
    requires { 0 < threads }
    ensures in_range { result ≤ left }
    ensures last { threads ≡ 1 → result ≡ left }
{
    left / u64::from(threads)
}

/// The chain that the answer says began now.
pub(crate) fn begun_now(answer: Answer) -> Result<ChainId, Fault> {
    match &answer {
        Answer::Begun {
            chain,
            again: false,
            ..
        } => Ok(*chain),
        Answer::Memory => Err(Fault::Memory),
        _ => Err(Fault::NotBegun),
    }
}

/// A client with its session, and which of a load's payments it makes. It must be spent, by
/// [`Payer::into_parts`].
pub(crate) struct Payer {
    session: Session,
    /// Its number among all clients, ..
    client: u8,
    /// .. and how many there are.
    clients: u8,
    servers: u8,
    /// So many payments of a hundred go to the next server.
    across: u8,
    /// The number of its first payment among those of all clients.
    first: u64,
    /// How many payments it makes.
    count: u64,
    /// How many of them began, or why one didn't. It makes no more then.
    begun: Result<u64, Fault>,
    ghost has_servers: { 0 < servers },
    ghost has_clients: { 0 < clients },
}

impl Payer {
    /// Makes one payment.
    fn pay<R: Wait + Clock>(
        &mut self,
        rt: &R,
        alloc: Global,
        frontend: &CountedFrontend,
        number: u64,
    ) -> Result<(), Fault> {
        let origin = origin_of(number, self.client, self.clients, self.servers);
        let client = self.session.number();
        let request = if goes_across(number, self.across) {
            payment(alloc, client, number, origin)?
        } else {
            payment_within(alloc, client, number, origin, self.servers)?
        };
        begun_now(frontend.begin(rt, alloc, &mut self.session, request))?;
        Ok(())
    }

    /// Makes its payments, and counts those that began.
    fn try_pay_all<R: Wait + Clock>(
        &mut self,
        rt: &R,
        alloc: Global,
        frontend: &CountedFrontend,
    ) -> Result<u64, Fault> {
        let mut begun: u64 = 0;
        for place in 0..self.count {
            self.pay(rt, alloc, frontend, self.first.saturating_add(place))?;
            begun = begun.saturating_add(1);
        }
        Ok(begun)
    }

    /// Makes its payments.
    pub(crate) fn pay_all<R: Wait + Clock>(
        &mut self,
        rt: &R,
        alloc: Global,
        frontend: &CountedFrontend,
    ) {
        self.begun = self.try_pay_all(rt, alloc, frontend);
    }

    /// Its session, and how many of its payments began, or why one didn't.
    pub(crate) fn into_parts(self) -> (Session, Result<u64, Fault>) {
        let Payer {
            session,
            client: _,
            clients: _,
            servers: _,
            across: _,
            first: _,
            count: _,
            begun,
        } = self;
        (session, begun)
    }
}

/// Adds a client to the list. For want of memory its session is abandoned.
fn add(payers: &mut Vec<Payer>, payer: Payer) -> Result<(), Fault> {
    match payers.push(payer) {
        Ok(()) => Ok(()),
        Err(AllocFailed { value }) => {
            value.into_parts().0.abandon();
            Err(Fault::Memory)
        }
    }
}

/// Adds the clients of a load to the list, which share its payments.
pub(crate) fn add_payers<R: Wait>(
    rt: &R,
    alloc: Global,
    frontend: &CountedFrontend,
    load: Load,
    payers: &mut Vec<Payer>,
) -> Result<(), Fault> {
    let mut left = load.payments;
    for before in 0..load.threads {
        let count = share_of(left, load.threads - before);
        let payer = Payer {
            session: frontend.session(rt, alloc).ok_or(Fault::Session)?,
            client: before,
            clients: load.threads,
            servers: load.servers,
            across: load.across,
            first: load.payments.saturating_sub(left),
            count,
            begun: Ok(0),
        };
        add(payers, payer)?;
        left -= count;
    }
    Ok(())
}
