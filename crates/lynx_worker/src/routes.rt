//! The routes of a worker to all servers.
ghost use Rattle.std.specs.Prelude.{◌≡◌, ◌<◌, ◌∷◌, [], IfOk, None, length};
ghost use Rattle.std.specs.List.{AllByRecursion};
ghost use Rattle.lynx_worker.specs.Routes.{AreRoutes, lags_of};
ghost use Rattle.lynx_worker.specs.Sending.{Sends};

use crate::route::Route;
use crate::steps::{Due, Heard, Steps};
use lynx_link::Ends;
use lynx_names::{Memory, ServerId};
use std::alloc::Global;
use std::marker::Model;
use std::sync::Wait;
use std::time::Clock;

/// Messages that one pass sends by each route that lags, at most.
const ROUTE_MESSAGES: usize = 256;

/// A route to each server. Contracts see from where each lags.
#[derive(Drop)]
pub(crate) struct Routes {
    /// By server.
    routes: Vec<Route>,
}

impl Model for Routes {
    ghost use Rattle.std.specs.Prelude.{ℕ, List, Option};
    ghost use Rattle.std.specs.Coded.{coded_list, coded_option, coded_ℕ};
    ghost use Rattle.lynx_worker.specs.Routes.{AreRoutes, lags_of};

    ghost Value = { List (Option ℕ) };

    ghost coded = { coded_list (coded_option coded_ℕ) };

    ghost view = { λ routes. lags_of routes.routes.items };

    ghost invariant = { λ routes. AreRoutes routes.routes.items };
}

/// A route to each of so many servers.
fn routes_to(alloc: Global, servers: u8) -> Result<Vec<Route>, Memory>
    ensures routes { IfOk result (λ routes. AreRoutes routes.items) }
    ensures lags { IfOk result (λ routes. AllByRecursion (λ lag. lag ≡ None)
        (lags_of routes.items)) }
{
    let mut routes = Vec::with_capacity(alloc, usize::from(servers))?;
    for number in 0..servers {
        let Some(to) = ServerId::new(number) else {
            break;
        };
        routes.push(Route::new(alloc, to))?;
    }
    Ok(routes)
}

/// Sends a message by the route to its server. Whether it was sent.
fn send_by<R: Clock>(rt: &R, routes: &mut [Route], ends: &mut Ends, due: Due) -> bool
    requires { AreRoutes routes.old }
    ensures routes { AreRoutes routes.new }
    ensures sends { Sends (due ∷ []) ends.old (lags_of routes.old) ends.new
        (lags_of routes.new) }
{
    let index = due.to.index();
    if index >= routes.len() {
        return false;
    }
    routes[index].send(rt, ends, due)
}

/// Goes on with a route that lags, where there is room in its ring. Whether anything was sent.
fn catch_up_at<S: Steps, R: Wait + Clock>(
    rt: &R,
    alloc: Global,
    steps: &S,
    routes: &mut [Route],
    index: usize,
    ends: &mut Ends,
    reached: u64,
) -> bool
    requires routes { AreRoutes routes.old }
    requires index { index < length routes.old }
    ensures { AreRoutes routes.new }
{
    let route = &mut routes[index];
    let Some(from) = route.lags_at(ends) else {
        return false;
    };
    let owed = steps.owed(rt, alloc, from, ROUTE_MESSAGES);
    if !route.catch_up(rt, ends, owed, reached) {
        return false;
    }
    steps.signal(route.to());
    true
}

/// Sends again by a route what was not acknowledged for a while. Whether there was any.
fn send_again_at<S: Steps, R: Wait + Clock>(
    rt: &R,
    alloc: Global,
    steps: &S,
    routes: &mut [Route],
    index: usize,
    ends: &mut Ends,
) -> bool
    requires routes { AreRoutes routes.old }
    requires index { index < length routes.old }
    ensures { AreRoutes routes.new }
{
    let route = &mut routes[index];
    if !route.send_again(rt, alloc, steps, ends) {
        return false;
    }
    steps.signal(route.to());
    true
}

/// Notes that a message was acknowledged.
fn hear_one<R: Clock>(rt: &R, routes: &mut [Route], heard: Heard)
    requires { AreRoutes routes.old }
    ensures { AreRoutes routes.new }
{
    let index = heard.from.index();
    if index < routes.len() {
        routes[index].hear(rt, heard.place);
    }
}

impl Routes {
    /// To so many servers, none of which lags.
    pub(crate) fn new(alloc: Global, servers: u8) -> Result<Routes, Memory>
        ensures { IfOk result (λ routes. AllByRecursion (λ lag. lag ≡ None) routes) }
    {
        let routes = routes_to(alloc, servers)?;
        Ok(Routes { routes })
    }

    /// How many there are.
    pub(crate) fn len(&self) -> usize {
        self.routes.len()
    }

    /// Sends a message by the route to its server. Whether it was sent.
    pub(crate) fn send<R: Clock>(&mut self, rt: &R, ends: &mut Ends, due: Due) -> bool
        ensures { Sends (due ∷ []) ends.old self.old ends.new self.new }
    {
        send_by(rt, self.routes.as_mut_slice(), ends, due)
    }

    /// Sends by each route that lags, where there is room in its ring, what lies before how far the
    /// worker has come. Whether anything was sent.
    pub(crate) fn catch_up<S: Steps, R: Wait + Clock>(
        &mut self,
        rt: &R,
        alloc: Global,
        steps: &S,
        ends: &mut Ends,
        reached: u64,
    ) -> bool {
        let mut is_busy = false;
        for index in 0..self.routes.len() {
            if catch_up_at(
                rt,
                alloc,
                steps,
                self.routes.as_mut_slice(),
                index,
                ends,
                reached,
            ) {
                is_busy = true;
            }
        }
        is_busy
    }

    /// Sends again what was not acknowledged for a while. Whether there was any.
    pub(crate) fn send_again<S: Steps, R: Wait + Clock>(
        &mut self,
        rt: &R,
        alloc: Global,
        steps: &S,
        ends: &mut Ends,
    ) -> bool {
        let mut is_busy = false;
        for index in 0..self.routes.len() {
            if send_again_at(rt, alloc, steps, self.routes.as_mut_slice(), index, ends) {
                is_busy = true;
            }
        }
        is_busy
    }

    /// Notes which messages were acknowledged.
    pub(crate) fn hear<R: Clock>(&mut self, rt: &R, heard: Vec<Heard>) {
        for heard in heard {
            hear_one(rt, self.routes.as_mut_slice(), heard);
        }
    }

    /// How far nothing is owed by any route, where the worker has come so far.
    pub(crate) fn owe_from(&self, reached: u64) -> u64 {
        let mut from = reached;
        for route in self.routes.iter() {
            if let Some(first) = route.owes_from() {
                from = from.min(first);
            }
        }
        from
    }

    /// Whether something that was sent may have to be sent again, or lags.
    pub(crate) fn awaits(&self) -> bool {
        self.routes.iter().any(Route::awaits)
    }
}
