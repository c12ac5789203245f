//! What a client is told if the stack refuses its request.

use crate::page::{Page, text};
use http::HeaderValue;
use hyper::{Response, StatusCode, header};
use std::alloc::Global;
use tower::{Refusal, StackError, load_shed};

/// A refusal without a response. It ends the connection.
#[derive(Clone, Copy, Debug, thiserror::Error)]
#[error("{0}")]
pub struct Failure(Refusal);

// Only want of memory keeps a response from being made.
impl From<http::Error> for Failure {
    fn from(_error: http::Error) -> Failure {
        Failure(Refusal::Memory)
    }
}

impl<E: StackError + Drop> From<load_shed::Error<E>> for Failure {
    fn from(error: load_shed::Error<E>) -> Failure {
        Failure(error.refusal().unwrap_or(Refusal::Memory))
    }
}

/// Passes a response on. Turns `Overloaded` into a 503 and `Elapsed` into a 504. Any other error ends the
/// connection.
pub fn respond<E: StackError + Drop>(
    alloc: Global,
    outcome: Result<Response<Page>, load_shed::Error<E>>,
) -> Result<Response<Page>, Failure> {
    let error = match outcome {
        Ok(response) => return Ok(response),
        Err(error) => Failure::from(error),
    };
    match error {
        Failure(Refusal::Overloaded) => Ok(busy(alloc)?),
        Failure(Refusal::Elapsed) => Ok(text(alloc, StatusCode::GATEWAY_TIMEOUT, "too slow")?),
        error => Err(error),
    }
}

fn busy(alloc: Global) -> http::Result<Response<Page>> {
    let mut response = text(alloc, StatusCode::SERVICE_UNAVAILABLE, "busy")?;
    let seconds = HeaderValue::from_static("1");
    response.headers_mut().insert(header::RETRY_AFTER, seconds)?;
    Ok(response)
}
