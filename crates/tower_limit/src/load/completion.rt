//! When a request is no longer pending: the Rust's `tower::load::completion`.
ghost use Rattle.std.specs.Prelude.{◌≡◌, ⊤, Some, IsSome};
ghost use Rattle.tower_base.specs.Gives.{IsStep, MayGive};
ghost use Rattle.tower_limit.specs.Completion.{TrackCompletionFutureView, Stepped};

use futures::future::Future;
use futures::task::{Context, Poll};
use std::marker::Model;
use tower_base::service::Steps;

/// Takes the handle of a request with its response, and so decides how long the request is pending: the
/// Rust's `tower::load::completion::TrackCompletion`.
pub trait TrackCompletion<H, V>: Copy {
    type Output: Drop;

    // Each completion that is passed in has it.
    ghost sound: { Self → Type 0 } = { λ _. ⊤ };

    // A handle and a value may give this output.
    ghost tracked: { Self → H → V → Self.Output → Type 0 };

    /// Returns the response for the caller. The request is pending until the handle is dropped.
    fn track_completion(&self, handle: H, value: V) -> Self::Output
        requires { sound self.now }
        ensures { tracked self.now handle value result };
}

/// Drops the handle at once, so that a request is pending until its response is there: the Rust's
/// `tower::load::completion::CompleteOnResponse`.
#[derive(Clone, Copy, Debug, Default, PartialEq, Eq)]
pub struct CompleteOnResponse;

impl<H: Drop, V: Drop> TrackCompletion<H, V> for CompleteOnResponse {
    type Output = V;

    ghost tracked = { λ _ handle value output. output ≡ value };

    fn track_completion(&self, handle: H, value: V) -> V {
        drop(handle);
        value
    }
}

/// The future of a response, with the handle of its request: the Rust's
/// `tower::load::completion::TrackCompletionFuture`.
///
/// On `Ok` the handle is passed to the completion. After an error the future keeps it until the future
/// is dropped.
#[derive(Drop)]
pub struct TrackCompletionFuture<F, C, H> {
    future: F,
    completion: C,
    handle: Option<H>,
}

impl<F, C, H> Model for TrackCompletionFuture<F, C, H> {
    ghost Value = { TrackCompletionFutureView F C H };

    ghost view = { λ f. record {
      future = f.future;
      completion = f.completion;
      handle = f.handle;
    } };
}

impl<F, C, H> TrackCompletionFuture<F, C, H> {
    /// Creates the future of a request that has this handle.
    pub fn new(completion: C, handle: H, future: F) -> TrackCompletionFuture<F, C, H>
        ensures { result
            ≡ record { future = future; completion = completion; handle = Some handle } }
    {
        TrackCompletionFuture {
            future,
            completion,
            handle: Some(handle),
        }
    }
}

impl<T, E, F, C, H> Future for TrackCompletionFuture<F, C, H>
where
    F: Steps<Output = Result<T, E>>,
    C: TrackCompletion<H, T>,
    H: Drop,
{
    type Output = Result<C::Output, E>;

    ghost can_poll = { λ v. F.can_poll v.future × C.sound v.completion × IsSome v.handle };

    ghost gives = { MayGive (Stepped C.tracked F.Steps.own) };

    ghost needs = { λ v. F.needs v.future };

    #[tactic(auto, using(tower_base::specs::GivesLemmas::one_step))]
    fn poll(&mut self, cx: &mut Context<'_>) -> Poll<Self::Output>
        requires { F.can_poll self.old.future × C.sound self.old.completion
            × IsSome self.old.handle }
        ensures { IsStep (Stepped C.tracked F.Steps.own)
            (λ v. F.can_poll v.future × C.sound v.completion × IsSome v.handle)
            (λ v. F.needs v.future) self.old result self.new cx.old cx.new }
    {
        self.step(cx)
    }
}

impl<T, E, F, C, H> Steps for TrackCompletionFuture<F, C, H>
where
    F: Steps<Output = Result<T, E>>,
    C: TrackCompletion<H, T>,
    H: Drop,
{
    type Output = Result<C::Output, E>;

    ghost can_poll = { λ v. F.can_poll v.future × C.sound v.completion × IsSome v.handle };

    ghost needs = { λ v. F.needs v.future };

    ghost stepped = { Stepped C.tracked F.Steps.own };

    ghost stirs = { λ old new. F.stirs old.future new.future };

    fn step(&mut self, cx: &mut Context<'_>) -> Poll<Self::Output> {
        match self.future.step(cx) {
            Poll::Ready(Ok(value)) => {
                let handle = self.handle.take().unwrap();
                Poll::Ready(Ok(self.completion.track_completion(handle, value)))
            }
            Poll::Ready(Err(error)) => Poll::Ready(Err(error)),
            Poll::Pending => Poll::Pending,
        }
    }
}
