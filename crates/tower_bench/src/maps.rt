//! A stack of five maps.
ghost use Rattle.std.specs.Prelude.{IsSome};

use crate::rounds::Course;
use futures::future::Ready;
use futures::task::Context;
use std::alloc::AllocError;
use tower::{Service, ServiceExt};

/// A later response.
type Later = Ready<Result<u64, u64>>;

/// Rounds under `map_request`, `map_response`, `map_err`, `then` and `and_then`, the last outermost.
pub fn five<S, T, A, B, C, D, E>(
    cx: &mut Context<'_>,
    inner: S,
    course: &T,
    request: A,
    response: B,
    error: C,
    outcome: D,
    later: E,
) -> Result<u64, AllocError>
where
    S: Service<u64, Response = u64, Error = u64>,
    T: Course,
    A: FnMut(u64) -> u64 + Drop,
    B: Fn(u64) -> u64 + Copy,
    C: Fn(u64) -> u64 + Copy,
    D: Fn(Result<u64, u64>) -> Later + Copy,
    E: Fn(u64) -> Later + Copy,
    requires inner { S.sound inner }
    requires request { A.IsAlwaysCallable request }
    requires response { B.IsAlwaysCallable response }
    requires error { C.IsAlwaysCallable error }
    requires outcome { D.IsAlwaysCallable outcome }
    requires later { E.IsAlwaysCallable later }
    requires then { (x : _) (t : _) → D.post outcome x t → IsSome t.0 }
    requires and_then { (x : _) (t : _) → E.post later x t → IsSome t.0 }
{
    let service = inner
        .map_request(request)
        .map_response(response)
        .map_err(error)
        .then(outcome)
        .and_then(later);
    course.run(cx, service)
}
