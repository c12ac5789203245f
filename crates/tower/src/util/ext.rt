//! Methods of every service.
ghost use Rattle.std.specs.Prelude.{◌≡◌, Some, None, IsSomeAnd, IfOk, OnOk};
ghost use Rattle.tower_ware.specs.CallAll.{New as Opens};
ghost use Rattle.tower.specs.Waits.{Waited, Answered, Each};
ghost use Rattle.tower_util.specs.declared.util.oneshot.State.TheVariants.{NotReady};

use crate::filter::{AsyncFilter, AsyncPredicate, Filter, Predicate};
use crate::meter::{Meter, Metered, Traced};
use crate::util;
use crate::util::{
    AndThen, CallAll, MapErr, MapFuture, MapRequest, MapResponse, MapResult, Oneshot, Ready,
    ReadyOneshot, Then,
};
use futures::future::Future;
use std::alloc::{AllocGlobal, Global};
use std::io;
use std::random::RandomSource;
use std::sync::Wait;
use tower_base::service::{Flow, Service};

/// Methods that every service has: the Rust's `tower::ServiceExt`.
pub trait ServiceExt<Request>: Service<Request> {
    /// Returns a future that waits until the service is ready, and then returns its borrow. After an error
    /// contracts know nothing of the service; after `block_on_ready` they do, and of a `Sealed` they always
    /// know that it is sound, so a pool's task seals its service before it makes call after call.
    final fn ready(&mut self) -> Ready<'_, Self, Request>
    where
        Self: Sized,
        ensures { IsSomeAnd result.service
            (λ lent. (lent.now ≡ self.old) × (lent.ghost_name ≡ self.entry.ghost_name)) }
    {
        Ready::new(self)
    }

    /// Returns a future that waits until the service is ready, and then returns the service.
    final fn ready_oneshot(self) -> ReadyOneshot<Self, Request>
    where
        Self: Sized,
        ensures { result ≡ Some self }
    {
        ReadyOneshot::new(self)
    }

    /// Returns a future that waits until the service is ready, and then calls it once.
    final fn oneshot(self, request: Request) -> Oneshot<Self, Request>
    where
        Self: Sized,
        ensures { result.state ≡ NotReady self request }
    {
        Oneshot::new(self, request)
    }

    /// Returns a stream that calls the service with each request of `requests`, and yields the answers in
    /// the order of the requests.
    final fn call_all<Q>(
        self,
        alloc: Global,
        requests: Q,
    ) -> CallAll<Self, Q, Self::Future, Result<Self::Response, Self::Error>, Request>
    where
        Self: Sized,
        Q: Flow<Item = Request>,
        ensures { Opens (Some self) requests None result }
    {
        CallAll::new(alloc, self, requests)
    }

    /// Passes on only the requests that the predicate accepts.
    final fn filter<F, NewRequest>(self, predicate: F) -> Filter<Self, F>
    where
        Self: Sized,
        F: Predicate<NewRequest, Request = Request>,
        ensures { result ≡ record { inner = self; predicate = predicate } }
    {
        Filter::new(self, predicate)
    }

    /// Filters as `filter` does, by a predicate that returns a future.
    final fn filter_async<F, NewRequest>(self, predicate: F) -> AsyncFilter<Self, F>
    where
        Self: Sized,
        F: AsyncPredicate<NewRequest, Request = Request>,
        ensures { result ≡ record { inner = self; predicate = predicate } }
    {
        AsyncFilter::new(self, predicate)
    }

    /// Counts what passes at this meter. The Rust has no such method.
    final fn metered<M, C, K>(self, meter: Meter<M>, clock: C, kinds: K) -> Metered<Self, M, C, K>
    where
        Self: Sized,
        ensures { result ≡ record {
          inner = self;
          latch = meter.latch;
          clock = clock;
          kinds = kinds;
          since = None;
        } }
    {
        Metered::new(self, meter, clock, kinds)
    }

    /// Tells of each call and answer, for logs. The Rust has no such method.
    final fn traced<C, N>(self, clock: C, trace: N) -> Traced<Self, C, N>
    where
        Self: Sized,
        ensures { result ≡ record { inner = self; clock = clock; trace = trace; since = None } }
    {
        Traced::new(self, clock, trace)
    }

    /// Goes on from each response with a future that the closure makes of it.
    final fn and_then<F>(self, f: F) -> AndThen<Self, F>
    where
        Self: Sized,
        F: Copy,
        ensures { result ≡ record { inner = self; f = f } }
    {
        AndThen::new(self, f)
    }

    /// Changes each response by the closure.
    final fn map_response<F, Response>(self, f: F) -> MapResponse<Self, F>
    where
        Self: Sized,
        F: Fn(Self::Response) -> Response + Copy,
        ensures { result ≡ record { inner = self; f = f } }
    {
        MapResponse::new(self, f)
    }

    /// Changes each error by the closure.
    final fn map_err<F, Error>(self, f: F) -> MapErr<Self, F>
    where
        Self: Sized,
        F: Fn(Self::Error) -> Error + Copy,
        ensures { result ≡ record { inner = self; f = f } }
    {
        MapErr::new(self, f)
    }

    /// Changes each result by the closure.
    final fn map_result<F, Response, Error>(self, f: F) -> MapResult<Self, F>
    where
        Self: Sized,
        Error: From<Self::Error>,
        F: Fn(Result<Self::Response, Self::Error>) -> Result<Response, Error> + Copy,
        ensures { result ≡ record { inner = self; f = f } }
    {
        MapResult::new(self, f)
    }

    /// Changes each request by the closure.
    final fn map_request<F, NewRequest>(self, f: F) -> MapRequest<Self, F>
    where
        Self: Sized,
        F: FnMut(NewRequest) -> Request,
        ensures { result ≡ record { inner = self; f = f } }
    {
        MapRequest::new(self, f)
    }

    /// Goes on from each result with a future that the closure makes of it.
    final fn then<F, Response, Error, Fut>(self, f: F) -> Then<Self, F>
    where
        Self: Sized,
        Error: From<Self::Error>,
        F: Fn(Result<Self::Response, Self::Error>) -> Fut + Copy,
        Fut: Future<Output = Result<Response, Error>>,
        ensures { result ≡ record { inner = self; f = f } }
    {
        Then::new(self, f)
    }

    /// Changes each future by the closure.
    final fn map_future<F, Fut, Response, Error>(self, f: F) -> MapFuture<Self, F>
    where
        Self: Sized,
        F: FnMut(Self::Future) -> Fut,
        Error: From<Self::Error>,
        Fut: Future<Output = Result<Response, Error>>,
        ensures { result ≡ record { inner = self; f = f } }
    {
        MapFuture::new(self, f)
    }
}

impl<T, Request> ServiceExt<Request> for T
where
    T: Service<Request>,
{}

/// Methods that wait for a borrowed service on the calling thread. The Rust has no such trait.
///
/// The trait has no bound; each method requires that `Self` is a service. With a bound on the trait or its
/// impl, all that a call of a method requires would have to be written out twice.
pub trait BlockOnExt<Request> {
    /// Waits on the calling thread until the service is ready or returns an error: the Rust's
    /// `service.ready().await`. The outer error means that the executor failed.
    final fn block_on_ready<R>(
        &mut self,
        rt: &R,
    ) -> io::Result<Result<(), <Self as Service<Request>>::Error>>
    where
        Self: Sized + Service<Request>,
        R: Wait + RandomSource + AllocGlobal,
        requires { Self.sound self.old }
        ensures sound { Self.sound self.new }
        ensures ready { IfOk result (λ answer. OnOk answer (Self.ready self.new)) }
        ensures waited { IfOk result (λ answer. Waited Self.Service self.old answer self.new) }
    {
        util::block_on_ready(self, rt)
    }

    /// Waits on the calling thread until the service is ready, calls it once, and waits for the response:
    /// the Rust's `service.ready().await?.call(request).await`. If readiness fails, its error is returned
    /// and no call is made. The outer error means that the executor failed.
    final fn block_on_call<R>(
        &mut self,
        rt: &R,
        request: Request,
    ) -> io::Result<Result<<Self as Service<Request>>::Response, <Self as Service<Request>>::Error>>
    where
        Self: Sized + Service<Request>,
        R: Wait + RandomSource + AllocGlobal,
        Request: Drop,
        requires { Self.sound self.old }
        ensures sound { Self.sound self.new }
        ensures answered { IfOk result
            (λ answer. Answered Self.Service Self.Future.stepped self.old request answer self.new) }
    {
        util::block_on_call(self, rt, request)
    }

    /// Calls the service with each of the requests, in order, as `block_on_call` does. Passes each answer
    /// to the closure before the next call, and goes on after an answer that is an error.
    final fn block_on_each<R, F>(
        &mut self,
        rt: &R,
        requests: Vec<Request>,
        each: F,
    ) -> io::Result<()>
    where
        Self: Sized + Service<Request>,
        R: Wait + RandomSource + AllocGlobal,
        Request: Drop,
        F: FnMut(Result<<Self as Service<Request>>::Response, <Self as Service<Request>>::Error>)
            + Drop,
        requires sound { Self.sound self.old }
        requires callable { F.IsAlwaysCallable each }
        ensures sound { Self.sound self.new }
        ensures told { IfOk result (λ _. (last : F) × Each Self.Service Self.Future.stepped F.step
            requests.items self.old each self.new last) }
    {
        util::block_on_each(self, rt, requests, each)
    }
}

impl<T, Request> BlockOnExt<Request> for T {}
