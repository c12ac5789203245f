//! A future that waits for a clock.
ghost use Rattle.std.specs.Prelude.{◌≡◌, ◌⊎◌, ⊤, ◌+◌, true};
ghost use Rattle.futures.specs.Poll.{OnPending};
ghost use Rattle.futures.specs.Task.{Covers, Keeps};
ghost use Rattle.tower_base.specs.Gives.{IsStep, MayGive};
ghost use Rattle.tower_base.specs.Quiet.{Quiet};
ghost use Rattle.tower_base.specs.Sleep.{SleepView, Stepped};

use crate::service::{Clock, Steps};
use futures::future::Future;
use futures::task::{Context, Poll};
use std::marker::Model;

/// A future that completes at the first poll whose reading is at or past its deadline. It is the Rust's
/// `tokio::time::Sleep` over a `Clock`.
#[derive(Drop)]
pub struct Sleep<C> {
    clock: C,
    deadline: u128,
}

impl<C> Model for Sleep<C> {
    ghost Value = { SleepView C };

    ghost view = { λ s. record { clock = s.clock; deadline = s.deadline } };
}

impl<C: Clock> Sleep<C> {
    /// Creates a future whose deadline is `wait` nanoseconds after now. Reads the clock once.
    pub fn new(mut clock: C, wait: u64) -> Sleep<C>
        ensures deadline { result.deadline ≡ C.reading result.clock + wait }
        ensures read { C.read clock result.clock }
    {
        let deadline = clock.now() as u128 + wait as u128;
        Sleep { clock, deadline }
    }
}

impl<C: Clock> Future for Sleep<C> {
    type Output = ();

    ghost gives = { MayGive (Stepped C.Clock) };

    ghost needs = { λ s. C.hears s.clock };

    #[tactic(auto, using(crate::specs::GivesLemmas::one_step))]
    fn poll(&mut self, cx: &mut Context<'_>) -> Poll<()>
        ensures { IsStep (Stepped C.Clock) (λ _. ⊤) (λ s. C.hears s.clock)
            self.old result self.new cx.old cx.new }
    {
        self.step(cx)
    }
}

impl<C: Clock> Steps for Sleep<C> {
    type Output = ();

    ghost needs = { λ s. C.hears s.clock };

    ghost stepped = { Stepped C.Clock };

    ghost stirs = { λ _ s. C.stirs s.clock };

    fn step(&mut self, cx: &mut Context<'_>) -> Poll<()>
        ensures step { Stepped C.Clock self.old result self.new }
        ensures again { OnPending result ⊤ }
        ensures registered { OnPending result (Covers cx.new (C.hears self.new.clock)) }
        ensures timed { OnPending result
            ((cx.new.is_woken ≡ true) ⊎ C.wakes_by self.new.clock self.new.deadline cx.new) }
        ensures quiet { Quiet (C.stirs self.new.clock) cx.old cx.new }
        ensures kept { Keeps cx.old cx.new }
    {
        let moment = self.clock.now();
        if moment as u128 >= self.deadline {
            return Poll::Ready(());
        }
        self.clock.wake_at(self.deadline, cx);
        Poll::Pending
    }
}
