//! What sends requests.
ghost use Rattle.std.specs.Prelude.{⊤, Result};
ghost use Rattle.futures.specs.Task.{IsArmed, Keeps};
ghost use Rattle.futures.specs.Poll.{OnPending};
ghost use Rattle.futures.specs.declared.task.Poll.{Poll};
ghost use Rattle.http.specs.Request.{body_of};
ghost use Rattle.tower_base.specs.Quiet.{Quiet};

use futures::future::Future;
use futures::task::{Context, Poll};
use hyper::body::{Body, Incoming};
use hyper::client::conn::http1::{self, SendRequest};
use hyper::{Request, Response};

/// The sending end of a connection, which takes one request at a time: `hyper`'s `SendRequest`, or what a
/// test puts in its place.
pub trait Sender<Request>: Drop {
    type Response: Drop;

    type Error: Drop;

    type Future: Future<Output = Result<Self::Response, Self::Error>>;

    // The request may be sent.
    ghost can_send: { Request → Type 0 } = { λ _. ⊤ };

    // A poll of readiness may return this and leave the second value.
    ghost polled: { Self → Poll (Result (Unit {0}) Self.Error) → Self → Type 0 } = { λ _ _ _. ⊤ };

    // A poll of readiness that led from the first value to the second may have asked for another poll. If
    // this is left out, it isn't known when.
    ghost stirs: { Self → Self → Type 0 } = { λ _ _. ⊤ };

    // The request was sent once; the future is that of its response, and the second value is left.
    ghost sent: { Self → Request → Self.Future → Self → Type 0 } = { λ _ _ _ _. ⊤ };

    /// Returns `Ok` once the connection takes another request, and an error once it is closed.
    fn poll_ready(&mut self, cx: &mut Context<'_>) -> Poll<Result<(), Self::Error>>
        ensures polled { polled self.old result self.new }
        ensures armed { OnPending result (IsArmed cx.new) }
        // It asks for another poll only for a cause that it names.
        ensures quiet { Quiet (stirs self.old self.new) cx.old cx.new }
        ensures kept { Keeps cx.old cx.new };

    /// Sends the request, and returns the future of its response.
    fn send_request(&mut self, request: Request) -> Self::Future
        requires { can_send request }
        ensures sent { sent self.old request result self.new }
        ensures can_poll { Self.Future.can_poll result };
}

/// Nothing is known of a response, or of when the connection is ready: that is between `hyper` and the peer.
// (`hyper` doesn't say when its poll asks for another poll. So `stirs` is left out.)
impl<B: Body, I: Drop> Sender<Request<B>> for SendRequest<B, I> {
    type Response = Response<Incoming<I>>;

    type Error = hyper::Error;

    type Future = http1::ResponseFuture<I>;

    ghost can_send = { λ request. B.can_poll (body_of request) };

    fn poll_ready(&mut self, cx: &mut Context<'_>) -> Poll<Result<(), hyper::Error>> {
        self.poll_ready(cx)
    }

    fn send_request(&mut self, request: Request<B>) -> http1::ResponseFuture<I> {
        self.send_request(request)
    }
}
