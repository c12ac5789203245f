//! What requests ask for.

use crate::page::{Page, number, text};
use hyper::{Method, Response, StatusCode};
use std::alloc::Global;

/// What a request asks for.
#[derive(Clone, Copy)]
pub enum Asked {
    /// The square of a number.
    Square(u32),
    /// An answer after so many milliseconds.
    Slow(u32),
    /// The length of the request's body.
    Length,
    NotANumber,
    NotAllowed,
    Unknown,
}

impl Asked {
    pub fn by(method: &Method, path: &str) -> Asked {
        if path == "/length" {
            return match method == &Method::POST {
                true => Asked::Length,
                false => Asked::NotAllowed,
            };
        }
        let (digits, is_slow) = match (path.strip_prefix("/square/"), path.strip_prefix("/slow/")) {
            (Some(digits), _) => (digits, false),
            (None, Some(digits)) => (digits, true),
            (None, None) => return Asked::Unknown,
        };
        if method != &Method::GET {
            return Asked::NotAllowed;
        }
        match digits.parse() {
            Ok(number) if is_slow => Asked::Slow(number),
            Ok(number) => Asked::Square(number),
            Err(_) => Asked::NotANumber,
        }
    }

    /// The answer to a request whose body has this length.
    pub fn page(self, alloc: Global, length: usize) -> http::Result<Response<Page>> {
        match self {
            Asked::Square(side) => number(alloc, u64::from(side).wrapping_mul(u64::from(side))),
            Asked::Slow(_) => text(alloc, StatusCode::OK, "at last"),
            Asked::Length => number(alloc, length as u64),
            Asked::NotANumber => text(alloc, StatusCode::BAD_REQUEST, "not a number"),
            Asked::NotAllowed => text(alloc, StatusCode::METHOD_NOT_ALLOWED, "not allowed"),
            Asked::Unknown => text(alloc, StatusCode::NOT_FOUND, "no such page"),
        }
    }
}
