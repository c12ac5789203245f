//! The sending end of a connection of `hyper` as a service of `tower`.
ghost use Rattle.std.specs.Prelude.{◌≡◌, IsTrue, false};
ghost use Rattle.tower_base.specs.Gives.{GivesOnly};
ghost use Rattle.tower_hyper.specs.Client.{Called, ClientView, Polled};

mod sender;

use futures::future::Future;
use futures::task::{Context, Poll};
pub use sender::Sender;
use std::marker::Model;
use tower_base::service::{Service, Stepping, Steps};

/// A service that sends each request over one connection.
///
/// The connection's own future has to be polled meanwhile, since it does the reading and the writing. A
/// request needs a `host` header, and its URI is sent as it is. If the connection ends before the response
/// came, the response is an error, as is each poll of readiness after that: a `Client` never connects anew.
#[derive(Drop)]
pub struct Client<T> {
    sender: T,
    // Whether the last poll returned `Ok`, and nothing was sent since.
    is_ready: bool,
}

impl<T> Model for Client<T> {
    ghost Value = { ClientView T };

    ghost view = { λ c. record { sender = c.sender; is_ready = c.is_ready } };
}

impl<T> Client<T> {
    /// Wraps the sending end of a connection. Polls nothing. Nothing may be sent before a poll of readiness.
    pub fn new(sender: T) -> Client<T>
        ensures { result ≡ record { sender = sender; is_ready = false } }
    {
        Client {
            sender,
            is_ready: false,
        }
    }
}

impl<R: Drop, T: Sender<R>> Service<R> for Client<T> {
    type Response = T::Response;

    type Error = T::Error;

    type Future = ResponseFuture<T::Future>;

    // Each request may be sent. (Of `hyper`'s `SendRequest`: each body may be polled.)
    ghost sound = { λ _. (request : R) → T.can_send request };

    ghost ready = { λ c. IsTrue c.is_ready };

    ghost polled = { Polled T.Sender };

    ghost stirs = { λ old new. T.stirs old.sender new.sender };

    ghost called = { Called T.Sender };

    ghost readies = { λ _ _ p. p.is_ready };

    fn poll_ready(&mut self, cx: &mut Context<'_>) -> Poll<Result<(), T::Error>> {
        let answer = self.sender.poll_ready(cx);
        self.is_ready = matches!(&answer, Poll::Ready(Ok(())));
        answer
    }

    /// Sends the request, once. What comes is up to `hyper` and the peer.
    fn call(&mut self, request: R) -> ResponseFuture<T::Future> {
        self.is_ready = false;
        ResponseFuture {
            response: Stepping::new(self.sender.send_request(request)),
        }
    }
}

/// The future of the response to a request that was sent.
#[derive(Drop)]
pub struct ResponseFuture<F> {
    response: Stepping<F>,
}

impl<F> Model for ResponseFuture<F> {
    ghost Value = { F };

    ghost view = { λ f. f.response };
}

// (`Future` doesn't say when a poll asks for another poll. So `stirs` is left out.)
impl<F: Future> Steps for ResponseFuture<F> {
    type Output = F::Output;

    ghost can_poll = { F.can_poll };

    ghost needs = { F.needs };

    ghost stepped = { GivesOnly F.gives };

    fn step(&mut self, cx: &mut Context<'_>) -> Poll<F::Output> {
        self.response.step(cx)
    }
}
