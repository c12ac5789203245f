//! `CallAll` and `CallAllUnordered`.

use futures::StreamExt;
use futures::executor::block_on;
use futures::future::Future;
use futures::stream::Stream;
use futures::task::{Context, Poll};
use std::alloc::AllocGlobal;
use std::convert::Infallible;
use std::fmt::Display;
use std::io;
use std::random::RandomSource;
use std::sync::Wait;
use tower::service::{Flow, Steps};
use tower::{ServiceExt, service_fn};

/// A future that returns its number, after ten times as many pending polls.
#[derive(Clone, Copy)]
struct Fetch {
    number: u32,
    left: u32,
}

impl Fetch {
    fn new(number: u32) -> Fetch {
        let left = number.saturating_mul(10);
        Fetch { number, left }
    }
}

impl Future for Fetch {
    type Output = Result<u32, Infallible>;

    fn poll(&mut self, cx: &mut Context<'_>) -> Poll<Self::Output> {
        self.step(cx)
    }
}

impl Steps for Fetch {
    type Output = Result<u32, Infallible>;

    fn step(&mut self, cx: &mut Context<'_>) -> Poll<Self::Output> {
        if self.left == 0 {
            return Poll::Ready(Ok(self.number));
        }
        self.left -= 1;
        cx.yield_now()
    }
}

/// The requests 2, 1 and 0.
#[derive(Clone, Copy)]
struct Requests {
    left: u32,
}

impl Stream for Requests {
    type Item = u32;

    fn poll_next(&mut self, cx: &mut Context<'_>) -> Poll<Option<u32>> {
        self.flow(cx)
    }
}

impl Flow for Requests {
    fn flow(&mut self, _cx: &mut Context<'_>) -> Poll<Option<u32>> {
        if self.left == 0 {
            return Poll::Ready(None);
        }
        self.left -= 1;
        Poll::Ready(Some(self.left))
    }
}

// Prints the answers of a stream, in the order in which they come.
fn tell_all<R, Q, E>(rt: R, name: &str, answers: Q) -> io::Result<()>
where
    R: Wait + RandomSource + AllocGlobal + Print + Copy,
    Q: Stream<Item = Result<u32, E>>,
    E: Display + Drop,
    requires { Q.can_poll answers }
{
    for answer in block_on(&rt, answers.collect(rt.alloc()))?? {
        crate::tell(rt, name, answer)?;
    }
    Ok(())
}

/// Prints answers that come in the order of the requests.
pub fn in_order<R>(rt: R) -> io::Result<()>
where
    R: Wait + RandomSource + AllocGlobal + Print + Copy,
{
    let fetch = service_fn(|number: u32| Fetch::new(number));
    tell_all(
        rt,
        "call_all",
        fetch.call_all(rt.alloc(), Requests { left: 3 }),
    )
}

/// Prints answers that come as soon as they are there.
pub fn as_they_come<R>(rt: R) -> io::Result<()>
where
    R: Wait + RandomSource + AllocGlobal + Print + Copy,
{
    let fetch = service_fn(|number: u32| Fetch::new(number));
    let calls = fetch.call_all(rt.alloc(), Requests { left: 3 });
    tell_all(rt, "call_all_unordered", calls.unordered())
}
