//! A future that is dropped when it returns its output.
ghost use Rattle.std.specs.Prelude.{◌≡◌, Option, Some};
ghost use Rattle.tower_util.specs.Fuse.{CanPoll, Stepped, Stirs, needs_of};

use futures::task::{Context, Poll};
use std::marker::Model;
use tower_base::service::Steps;

/// A future that is dropped in the poll that returns its output. It is the `Fuse` of the Rust's
/// `futures`, but may not be polled after the output.
#[derive(Drop)]
pub struct Fuse<F> {
    future: Option<F>,
}

impl<F> Model for Fuse<F> {
    ghost Value = { Option F };

    ghost view = { λ f. f.future };
}

impl<F> Fuse<F> {
    /// Wraps the future. Polls nothing.
    pub fn new(future: F) -> Fuse<F>
        ensures { result ≡ Some future }
    {
        Fuse {
            future: Some(future),
        }
    }
}

impl<F: Steps> Steps for Fuse<F> {
    type Output = F::Output;

    ghost can_poll = { CanPoll F.can_poll };

    ghost needs = { needs_of F.needs };

    ghost stirs = { Stirs F.stirs };

    ghost stepped = { Stepped F.stepped };

    #[inline]
    fn step(&mut self, cx: &mut Context<'_>) -> Poll<F::Output> {
        let Some(future) = &mut self.future else {
            unreachable!()
        };
        let polled = future.step(cx);
        if polled.is_ready() {
            self.future = None;
        }
        polled
    }
}
