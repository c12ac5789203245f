//! Pages of plain text.

use bytes::Bytes;
use http_body_util::Full;
use hyper::{Response, StatusCode, header};
use std::alloc::Global;

/// The body of a response.
pub type Page = Full<Bytes>;

/// A page of one line.
pub fn text(alloc: Global, status: StatusCode, line: &str) -> http::Result<Response<Page>> {
    let body = Bytes::from_string(format!(in alloc; "{line}\n")?)?;
    Response::builder(alloc)
        .status(status)
        .header(header::CONTENT_TYPE, "text/plain")
        .body(Full::new(body))
}

/// A page of one number.
pub fn number(alloc: Global, number: u64) -> http::Result<Response<Page>> {
    text(alloc, StatusCode::OK, &format!(in alloc; "{number}")?)
}
