//! What a request of HTTP asks for.
ghost use Rattle.std.specs.Prelude.{◌≡◌};
ghost use Rattle.http_uri.specs.Uri.{uri_query};
ghost use Rattle.std.specs.Option.{option_copied};
ghost use Rattle.lynx_status.specs.Asking.{IsAsked};
ghost use Rattle.lynx_status.specs.Asking.{refused_by};
ghost use Rattle.lynx_status.specs.Lookups.{allowed};
ghost use Rattle.lynx_status.specs.Questions.{host_in, host_of, method_of, target_in, target_of, wanted_at, wanted_of};

use crate::asking::{Asked, Refusal, asked_for, refused_by};
use crate::wanted::Wanted;
use crate::wanting::wanted_in;
use bytes::Bytes;
use http::{HeaderMap, Request, Uri, header};

/// The value of the one field Host. None where there is none, or more than one: of these only a
/// request at HTTP/1.0 that has none comes here, since `http1` refuses the others.
pub(crate) fn host_in(headers: &HeaderMap) -> Option<&[u8]>
    ensures { option_copied result ≡ host_in headers.now }
{
    let mut hosts = headers.get_all(header::HOST).iter();
    let host = hosts.next()?;
    match hosts.next() {
        Some(_) => None,
        None => Some(host.as_bytes()),
    }
}

/// The path of a target, nothing where the target names a host or has a query.
pub(crate) fn target_in(uri: &Uri) -> &str
    ensures { result.now ≡ target_in uri.now }
{
    if uri.authority().is_some() || uri.query().is_some() {
        ""
    } else {
        uri.path()
    }
}

/// The query of a target.
fn query_in(uri: &Uri) -> Option<&[u8]>
    ensures { option_copied result ≡ uri_query uri.now }
{
    Some(uri.query()?.as_bytes())
}

/// What a target looks up, nothing where it names a host.
fn wanted_at(uri: &Uri) -> Option<Result<Wanted, Refusal>>
    ensures { result ≡ wanted_at uri.now }
{
    if uri.authority().is_some() {
        return None;
    }
    wanted_in(uri.path().as_bytes(), query_in(uri))
}

/// What a request looks up. None where it asks for something else.
pub(crate) fn wanted_of(request: &Request<Bytes>) -> Option<Result<Wanted, Refusal>>
    ensures { result ≡ wanted_of request.now }
{
    wanted_at(request.uri())
}

/// The same where its method and its host are allowed.
pub(crate) fn allowed(
    request: &Request<Bytes>,
    wanted: Result<Wanted, Refusal>,
) -> Result<Wanted, Refusal>
    ensures { result ≡ allowed (refused_by (method_of request.now) (host_of request.now)) wanted }
{
    let method = request.method().as_str().as_bytes();
    match refused_by(method, host_in(request.headers())) {
        Some(why) => Err(why),
        None => wanted,
    }
}

/// What a request asks for.
pub(crate) fn question_of(request: &Request<Bytes>) -> Result<Asked, Refusal>
    ensures { IsAsked (method_of request.now) (host_of request.now) (target_of request.now)
        result }
{
    let method = request.method().as_str().as_bytes();
    let path = target_in(request.uri()).as_bytes();
    asked_for(method, host_in(request.headers()), path)
}
