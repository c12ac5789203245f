//! The kit's plain futures as `Steps`.
ghost use Rattle.std.specs.Prelude.{◌≡◌};
ghost use Rattle.tower_base.specs.Gives.{GivesOnly};
ghost use Rattle.futures.specs.declared.task.Poll.TheVariants.{Pending};

use crate::service::Steps;
use futures::future::{Future, Pending, Ready};
use futures::task::{Context, Poll};

// The output is the value that was put in. (The kit's contract also allows a pending poll, after which
// the future may return no more than before.)
impl<T: Drop> Steps for Ready<T> {
    type Output = T;

    ghost can_poll = { ⟦<Ready<T> as Future>⟧.can_poll };

    ghost needs = { ⟦<Ready<T> as Future>⟧.needs };

    ghost stepped = { GivesOnly ⟦<Ready<T> as Future>⟧.gives };

    fn step(&mut self, cx: &mut Context<'_>) -> Poll<T> {
        self.poll(cx)
    }
}

impl<T: Drop> Steps for Pending<T> {
    type Output = T;

    ghost can_poll = { ⟦<Pending<T> as Future>⟧.can_poll };

    ghost needs = { ⟦<Pending<T> as Future>⟧.needs };

    ghost stepped = { λ f answer g. answer ≡ Pending };

    fn step(&mut self, cx: &mut Context<'_>) -> Poll<T> {
        self.poll(cx)
    }
}
