//! What a request asks for, or why it is refused.
ghost use Rattle.std.specs.Option.{option_copied};
ghost use Rattle.std.specs.Prelude.{◌≡◌};
ghost use Rattle.lynx_status.specs.Asking.{IsAsked, refused_by};

use crate::hosts::is_local;
use crate::paths::asked_at;
use lynx_names::ChainId;
use thiserror::Error;

/// What can be asked for.
#[derive(Clone, Copy, Debug, PartialEq, Eq)]
pub enum Asked {
    /// `/healthz`: whether all servers run.
    Health,
    /// `/metrics`: the figures, for Prometheus.
    Metrics,
    /// `/status`: the figures and the last entries, for people.
    Status,
    /// `/set`: the text of the set.
    Set,
    /// `/chain/ORIGIN:INDEX`: how far that chain has come.
    Chain(ChainId),
}

/// Why a request is refused. The first that holds is told.
#[derive(Clone, Copy, Debug, PartialEq, Eq, Error)]
pub enum Refusal {
    /// It has no field Host, or more than one. At HTTP/1.1, and where there is more than one,
    /// `http_server` refuses it itself, with this status and no line.
    #[error("no host")]
    NoHost,
    /// Its host isn't 127.0.0.1, localhost or [::1]: who asks was led here by another name.
    #[error("other host")]
    OtherHost,
    /// It would command, and comes from a page in a browser: it has a field Origin.
    #[error("other origin")]
    OtherOrigin,
    /// Its method isn't GET, and it commands nothing.
    #[error("other method")]
    OtherMethod,
    /// There is nothing at its path.
    #[error("not found")]
    NotFound,
    /// Its path takes another query, or none.
    #[error("bad query")]
    BadQuery,
    /// The set has no such table.
    #[error("no such table")]
    NoTable,
    /// No server has a record of that request.
    #[error("no such request")]
    NoRequest,
    /// No such chain began.
    #[error("no such chain")]
    NoChain,
    /// The server that has the cells stopped.
    #[error("server stopped")]
    Stopped,
}

/// Why a request is refused before its path is looked at.
pub(crate) fn refused_by(method: &[u8], host: Option<&[u8]>) -> Option<Refusal>
    ensures { result ≡ refused_by method.now (option_copied host.entry) }
{
    let Some(host) = host else {
        return Some(Refusal::NoHost);
    };
    if !is_local(host) {
        return Some(Refusal::OtherHost);
    }
    if method != b"GET".as_slice() {
        return Some(Refusal::OtherMethod);
    }
    None
}

/// What a request asks for by its method, the value of its one field Host, None where it hasn't
/// one, and its path with all that follows.
pub fn asked_for(method: &[u8], host: Option<&[u8]>, path: &[u8]) -> Result<Asked, Refusal>
    ensures { IsAsked method.now (option_copied host.entry) path.now result }
{
    if let Some(why) = refused_by(method, host) {
        return Err(why);
    }
    match asked_at(path) {
        Some(asked) => Ok(asked),
        None => Err(Refusal::NotFound),
    }
}
