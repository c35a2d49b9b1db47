//! What is answered, before it is an answer of HTTP; and how it becomes one.
ghost use Rattle.std.specs.Prelude.{◌≡◌, ◌++◌, IfOk, OnOk};
ghost use Rattle.http_header.specs.FieldValue.{plain_value};
ghost use Rattle.http_server.specs.Response.{IsBlank, IsResponse, fields_of};
ghost use Rattle.lynx_status.specs.Replies.{IsReply, allow_fields, close_fields, content_type, fields_for, refusal_status, refusal_text, safety_fields};

use crate::asking::Refusal;
use bytes::BufMut;
use http::{HeaderValue, StatusCode, header};
use http_server::Response;
use lynx_names::Memory;
use std::alloc::{AllocError, Global};

/// What a body is.
#[derive(Clone, Copy, Debug, PartialEq, Eq)]
pub enum Content {
    Text,
    Metrics,
    Page,
    Json,
}

/// What is answered.
#[derive(Drop)]
pub(crate) struct Reply {
    pub status: StatusCode,
    pub content: Content,
    pub body: Vec<u8>,
}

impl Content {
    /// What the field content-type says of it.
    #[tactic(auto, unfolding(crate::specs::Replies::content_type))]
    fn value(self) -> HeaderValue
        ensures { result ≡ plain_value (content_type self) }
    {
        match self {
            Content::Text => HeaderValue::from_static("text/plain; charset=utf-8"),
            Content::Metrics => {
                HeaderValue::from_static("text/plain; version=0.0.4; charset=utf-8")
            }
            Content::Page => HeaderValue::from_static("text/html; charset=utf-8"),
            Content::Json => HeaderValue::from_static("application/json"),
        }
    }
}

impl Refusal {
    /// The status of HTTP that says so.
    fn status(self) -> StatusCode
        ensures { result ≡ refusal_status self }
    {
        match self {
            Refusal::NoHost => StatusCode::BAD_REQUEST,
            Refusal::OtherHost | Refusal::OtherOrigin => StatusCode::FORBIDDEN,
            Refusal::OtherMethod => StatusCode::METHOD_NOT_ALLOWED,
            Refusal::BadQuery => StatusCode::BAD_REQUEST,
            Refusal::NotFound | Refusal::NoTable | Refusal::NoRequest | Refusal::NoChain => {
                StatusCode::NOT_FOUND
            }
            Refusal::Stopped => StatusCode::SERVICE_UNAVAILABLE,
        }
    }

    /// The line that says so.
    fn text(self) -> &'static [u8]
        ensures { result.now ≡ refusal_text self }
    {
        match self {
            Refusal::NoHost => b"no host\n",
            Refusal::OtherHost => b"other host\n",
            Refusal::OtherOrigin => b"other origin\n",
            Refusal::OtherMethod => b"other method\n",
            Refusal::NotFound => b"not found\n",
            Refusal::BadQuery => b"bad query\n",
            Refusal::NoTable => b"no such table\n",
            Refusal::NoRequest => b"no such request\n",
            Refusal::NoChain => b"no such chain\n",
            Refusal::Stopped => b"server stopped\n",
        }
    }
}

impl Reply {
    /// What a refused request is answered.
    pub(crate) fn refusing(alloc: Global, why: Refusal) -> Result<Reply, Memory>
        ensures { IfOk result (IsReply (refusal_status why) Content.Text (refusal_text why)) }
    {
        Ok(Reply {
            status: why.status(),
            content: Content::Text,
            body: Vec::from_slice(alloc, why.text())?,
        })
    }
}

/// Adds the fields by which a browser keeps and runs nothing of others.
#[tactic(auto, unfolding(crate::specs::Replies::safety_fields))]
fn put_safety(response: &mut Response) -> Result<(), AllocError>
    ensures fields { OnOk result (fields_of response.new
        ≡ fields_of response.old ++ safety_fields) }
    ensures status { response.new.status ≡ response.old.status }
    ensures body { response.new.body ≡ response.old.body }
{
    let no_store = HeaderValue::from_static("no-store");
    response.add_header(header::CACHE_CONTROL, no_store)?;
    let no_sniff = HeaderValue::from_static("nosniff");
    response.add_header(header::X_CONTENT_TYPE_OPTIONS, no_sniff)?;
    let policy = HeaderValue::from_static(
        "default-src 'none'; style-src 'unsafe-inline'; script-src 'unsafe-inline'; connect-src 'self'; base-uri 'none'; form-action 'none'; frame-ancestors 'none'",
    );
    response.add_header(header::CONTENT_SECURITY_POLICY, policy)?;
    Ok(())
}

/// Adds the field that says which methods there are, where another was used.
#[tactic(auto, unfolding(crate::specs::Replies::allow_fields))]
fn put_allow(response: &mut Response, status: StatusCode) -> Result<(), AllocError>
    ensures fields { OnOk result (fields_of response.new
        ≡ fields_of response.old ++ allow_fields status) }
    ensures status { response.new.status ≡ response.old.status }
    ensures body { response.new.body ≡ response.old.body }
{
    if status.as_u16() == 405 {
        response.add_header(header::ALLOW, HeaderValue::from_static("GET"))?;
    }
    Ok(())
}

/// Adds the field that says that the connection is closed, where it is to be.
#[tactic(auto, unfolding(crate::specs::Replies::close_fields))]
fn put_close(response: &mut Response, is_ending: bool) -> Result<(), AllocError>
    ensures fields { OnOk result (fields_of response.new
        ≡ fields_of response.old ++ close_fields is_ending) }
    ensures status { response.new.status ≡ response.old.status }
    ensures body { response.new.body ≡ response.old.body }
{
    if is_ending {
        response.add_header(header::CONNECTION, HeaderValue::from_static("close"))?;
    }
    Ok(())
}

/// Fills a response.
pub(crate) fn fill(
    response: &mut Response,
    status: StatusCode,
    content: Content,
    body: &[u8],
    is_ending: bool,
) -> Result<(), AllocError>
    requires { IsBlank response.old }
    ensures { OnOk result (IsResponse status (fields_for content status is_ending) body.now
        response.new) }
{
    response.status = status;
    response.add_header(header::CONTENT_TYPE, content.value())?;
    put_safety(response)?;
    put_allow(response, status)?;
    put_close(response, is_ending)?;
    response.body.put_slice(body)
}
