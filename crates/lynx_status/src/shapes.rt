//! In which form what is looked up is told.
ghost use Rattle.std.specs.Option.{option_copied};
ghost use Rattle.std.specs.Prelude.{◌≡◌};
ghost use Rattle.lynx_status.specs.Questions.{only_one};
ghost use Rattle.lynx_status.specs.Shapes.{content_of, shape_for, shape_in, shape_of};
ghost use Rattle.http_header.specs.HeaderMap.{get_all};
ghost use Rattle.std.specs.Prelude.{codes};

use crate::reply::Content;
use bytes::Bytes;
use http::{HeaderMap, Request, header};

/// In which form what is looked up is told.
#[derive(Clone, Copy, Debug, PartialEq, Eq)]
pub enum Shape {
    /// One line of JSON.
    Json,
    /// Plain text, a line for each cell, record or hop. The client sent `Accept: text/plain`.
    Lines,
}

impl Shape {
    /// What its body is.
    pub(crate) fn content(self) -> Content
        ensures { result ≡ content_of self }
    {
        match self {
            Shape::Json => Content::Json,
            Shape::Lines => Content::Text,
        }
    }
}

/// The value of the one field Accept. None where there is none, or more than one.
fn accepted_in(headers: &HeaderMap) -> Option<&[u8]>
    ensures { option_copied result ≡ only_one (get_all headers.now (codes "accept")) }
{
    let mut values = headers.get_all(header::ACCEPT).iter();
    let value = values.next()?;
    match values.next() {
        Some(_) => None,
        None => Some(value.as_bytes()),
    }
}

/// The form that such a field asks for.
fn shape_for(accepted: Option<&[u8]>) -> Shape
    ensures { result ≡ shape_for (option_copied accepted.entry) }
{
    match accepted {
        Some(wanted) if wanted == b"text/plain".as_slice() => Shape::Lines,
        _ => Shape::Json,
    }
}

/// The form that a request asks for.
pub(crate) fn shape_of(request: &Request<Bytes>) -> Shape
    ensures { result ≡ shape_of request.now }
{
    shape_for(accepted_in(request.headers()))
}
