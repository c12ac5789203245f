//! A policy of retries.

use futures::future::{Ready, ready};
use tower::retry::Policy;

/// No request is made again.
#[derive(Clone, Copy)]
pub struct NoRetries;

impl Policy<bool, bool, u8> for NoRetries {
    type Future = Ready<()>;

    fn retry(&mut self, _request: &mut bool, _answer: &mut Result<bool, u8>) -> Option<Ready<()>> {
        None
    }

    fn clone_request(&mut self, request: &bool) -> Option<bool> {
        Some(*request)
    }
}
