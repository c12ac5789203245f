//! Services that check each request with a predicate: the Rust's `tower::filter`.
ghost use Rattle.std.specs.Prelude.{◌≡◌};
ghost use Rattle.tower_base.specs.AnswersLemmas.{answered_ok};
ghost use Rattle.tower_ware.specs.Filter.{AsyncFilterCalled, AsyncResponseFutureStepped, FilterCalled, FilterView, IsClone, Polled};
ghost use Rattle.tower_ware.specs.declared.filter.error.Error.TheVariants.{Inner};
ghost use Rattle.tower_base.specs.ServiceRun.{Takes, relations};
ghost use Rattle.tower_base.specs.Projection.{MappedOrNone, Projects, Through};
ghost use Rattle.tower_base.specs.ProjectionLemmas.{composed};
ghost use Rattle.tower_ware.specs.Projections.{GoesAside, LetsThrough, RunsOfChecked, filter as filter_projects};

mod error;
pub mod future;
mod layer;
mod predicate;
mod state;

pub use error::Error;
use future::{AsyncResponseFuture, ResponseFuture};
use futures::task::{Context, Poll};
pub use layer::{AsyncFilterLayer, FilterLayer};
pub use predicate::{AsyncPredicate, AsyncPredicateFn, Predicate, PredicateFn};
use state::{AsyncState, State};
use std::alloc::AllocError;
use std::marker::Model;
use std::mem;
use tower_base::run::Contains;
use tower_base::service::{Service, Steps};

/// A service that checks each request with a predicate: the Rust's `tower::filter::Filter`.
///
/// If the predicate accepts the request, the inner service is called with the checked request. Otherwise
/// the response is the error `Rejected`. Errors of the inner service's readiness and responses are
/// returned as `Inner`.
#[derive(Drop)]
pub struct Filter<S, U> {
    inner: S,
    predicate: U,
}

impl<S, U> Model for Filter<S, U> {
    ghost Value = { FilterView S U };

    ghost view = { λ f. record { inner = f.inner; predicate = f.predicate } };
}

impl<S, U> Filter<S, U> {
    /// Creates a `Filter`. Calls neither the service nor the predicate.
    pub fn new(inner: S, predicate: U) -> Filter<S, U>
        ensures { result ≡ record { inner = inner; predicate = predicate } }
    {
        Filter { inner, predicate }
    }

    /// Returns a `FilterLayer` with the predicate.
    pub fn layer(predicate: U) -> FilterLayer<U>
        ensures { result ≡ predicate }
    {
        FilterLayer::new(predicate)
    }
}

impl<R, P, S, U> Service<R> for Filter<S, U>
where
    S: Service<P>,
    U: Predicate<R, Request = P>,
{
    type Response = S::Response;

    type Error = Error<S::Error, U::Error>;

    type Future = ResponseFuture<S::Future, U::Error>;

    ghost sound = { λ f. S.sound f.inner × U.sound f.predicate };

    ghost ready = { λ f. S.ready f.inner };

    ghost polled = { Polled S.Service };

    ghost needs = { λ f. S.needs f.inner };

    ghost stirs = { λ old new. S.stirs old.inner new.inner };

    ghost called = { FilterCalled S.Service U.Predicate };

    ghost readies = { λ old new p. S.readies old.inner new.inner
        (let e = answered_ok Inner p.inner tt p.answers in Prim.rw e at p.polled) };

    fn poll_ready(&mut self, cx: &mut Context<'_>) -> Poll<Result<(), Error<S::Error, U::Error>>> {
        match self.inner.poll_ready(cx) {
            Poll::Ready(Ok(())) => Poll::Ready(Ok(())),
            Poll::Ready(Err(error)) => Poll::Ready(Err(Error::Inner(error))),
            Poll::Pending => Poll::Pending,
        }
    }

    fn call(&mut self, request: R) -> ResponseFuture<S::Future, U::Error> {
        match self.predicate.check(request) {
            Ok(request) => ResponseFuture::new(State::Response(self.inner.call(request))),
            Err(error) => ResponseFuture::new(State::Refusal(error)),
        }
    }
}

/// States that each call makes one call of the inner service, with the checked request, or none.
pub fn projection<R, P, S: Service<P>, U: Predicate<R, Request = P>>()
    ensures { Projects (relations ⟦<Filter<S, U> as Service<R>>⟧) (relations S.Service)
        (λ f. f.inner) (MappedOrNone (LetsThrough U.Predicate)) }
{}

/// A `Filter` contains what its inner service contains.
impl<R, P, Passed, L, S, U> Contains<R, Passed, L> for Filter<S, U>
where
    L: Service<Passed>,
    S: Contains<P, Passed, L>,
    U: Predicate<R, Request = P>,
{
    ghost inside = { λ f. S.inside f.inner };

    ghost goes = { Through (MappedOrNone (LetsThrough U.Predicate)) S.goes };

    ghost projects = { composed _ _ _ (λ f. f.inner)
        S.inside _ S.goes (filter_projects _ U.Predicate) S.projects };
}

/// Clones the inner service and the predicate.
impl<S: Clone + Drop, U: Clone> Clone for Filter<S, U> {
    ghost is_clone = { IsClone U.is_clone S.is_clone };

    ghost is_infallible = { λ f. S.is_infallible f.inner × U.is_infallible f.predicate };

    fn clone(&self) -> Result<Filter<S, U>, AllocError> {
        let inner = self.inner.clone()?;
        let predicate = self.predicate.clone()?;
        Ok(Filter::new(inner, predicate))
    }
}

impl<S, U> Filter<S, U> {
    ghost use Rattle.tower_ware.specs.FilterLends.{LendsInner};
    ghost use Rattle.std.specs.Borrow.{sem};

    /// Calls the predicate with the request and returns its result. Doesn't call the inner service.
    pub fn check<R>(&mut self, request: R) -> Result<U::Request, U::Error>
    where
        U: Predicate<R>,
        requires { U.sound self.old.predicate }
        ensures checked { U.checked self.old.predicate request result self.new.predicate }
        ensures sound { U.sound self.new.predicate }
        ensures same { self.new.inner ≡ self.old.inner }
    {
        self.predicate.check(request)
    }

    /// Returns a reference to the inner service.
    pub fn get_ref(&self) -> &S
        ensures { result.now ≡ self.now.inner }
    {
        &self.inner
    }

    /// Returns a mutable reference to the inner service.
    pub fn get_mut(&mut self) -> &mut S
        ensures* writes_back { sem 𝓛 (LendsInner S.row U.row self.entry result) }
        ensures value { result.now ≡ self.old.inner }
    {
        &mut self.inner
    }

    /// Returns the inner service and drops the predicate.
    pub fn into_inner(self) -> S
    where
        U: Drop,
        ensures { result ≡ self.inner }
    {
        self.inner
    }
}

/// A service that checks each request with an asynchronous predicate: the Rust's
/// `tower::filter::AsyncFilter`.
///
/// If the predicate's future accepts the request, the inner service is called with the request that it
/// returns. Otherwise the response is the error `Rejected`. A call moves the service that was polled into
/// the future and keeps a clone of it. If allocating the clone fails, the service stays, the predicate
/// isn't called, and the response is the error `Memory`.
#[derive(Drop)]
pub struct AsyncFilter<S, U> {
    inner: S,
    predicate: U,
}

impl<S, U> Model for AsyncFilter<S, U> {
    ghost Value = { FilterView S U };

    ghost view = { λ f. record { inner = f.inner; predicate = f.predicate } };
}

impl<S, U> AsyncFilter<S, U> {
    /// Creates an `AsyncFilter`. Calls neither the service nor the predicate.
    pub fn new(inner: S, predicate: U) -> AsyncFilter<S, U>
        ensures { result ≡ record { inner = inner; predicate = predicate } }
    {
        AsyncFilter { inner, predicate }
    }

    /// Returns an `AsyncFilterLayer` with the predicate.
    pub fn layer(predicate: U) -> AsyncFilterLayer<U>
        ensures { result ≡ predicate }
    {
        AsyncFilterLayer::new(predicate)
    }
}

impl<R, P, S, U> Service<R> for AsyncFilter<S, U>
where
    R: Drop,
    S: Service<P> + Clone,
    U: AsyncPredicate<R, Request = P>,
{
    type Response = S::Response;

    type Error = Error<S::Error, U::Error>;

    type Future = AsyncResponseFuture<U::Future, S, S::Future>;

    // A clone of a sound service is sound.
    ghost sound = { λ f. S.sound f.inner × U.sound f.predicate
        × ((x y : S) → S.is_clone x y → S.sound x → S.sound y) };

    ghost ready = { λ f. S.ready f.inner };

    ghost polled = { Polled S.Service };

    ghost needs = { λ f. S.needs f.inner };

    ghost stirs = { λ old new. S.stirs old.inner new.inner };

    ghost called = { AsyncFilterCalled S.Service S.Clone U.AsyncPredicate };

    ghost readies = { λ old new p. S.readies old.inner new.inner
        (let e = answered_ok Inner p.inner tt p.answers in Prim.rw e at p.polled) };

    fn poll_ready(&mut self, cx: &mut Context<'_>) -> Poll<Result<(), Error<S::Error, U::Error>>> {
        match self.inner.poll_ready(cx) {
            Poll::Ready(Ok(())) => Poll::Ready(Ok(())),
            Poll::Ready(Err(error)) => Poll::Ready(Err(Error::Inner(error))),
            Poll::Pending => Poll::Pending,
        }
    }

    fn call(&mut self, request: R) -> AsyncResponseFuture<U::Future, S, S::Future> {
        match self.inner.clone() {
            Ok(clone) => {
                let polled = mem::replace(&mut self.inner, clone);
                let check = self.predicate.check(request);
                AsyncResponseFuture::new(AsyncState::Check(check, polled))
            }
            Err(_) => AsyncResponseFuture::new(AsyncState::NoClone),
        }
    }
}

/// States that each poll of readiness is one of the inner service. A call moves the inner service into its
/// future and leaves a clone, unless cloning fails. The future calls that service at most once, with the
/// request that the check returned.
pub fn async_projection<R: Drop, P, S: Service<P> + Clone, U: AsyncPredicate<R, Request = P>>()
    ensures inside { (old : _) (action : _) (new : _)
        → Takes (relations ⟦<AsyncFilter<S, U> as Service<R>>⟧) old action new
        → GoesAside S.Service S.Clone old action new }
    ensures future { (old new : _) (answer : _)
        → AsyncResponseFutureStepped S.Service S.Future.Steps.own U.Future.Steps.own old answer new
        → RunsOfChecked S.Service U.Future.Steps.own old new }
{}

/// Clones the inner service and the predicate.
impl<S: Clone + Drop, U: Clone> Clone for AsyncFilter<S, U> {
    ghost is_clone = { IsClone U.is_clone S.is_clone };

    ghost is_infallible = { λ f. S.is_infallible f.inner × U.is_infallible f.predicate };

    fn clone(&self) -> Result<AsyncFilter<S, U>, AllocError> {
        let inner = self.inner.clone()?;
        let predicate = self.predicate.clone()?;
        Ok(AsyncFilter::new(inner, predicate))
    }
}

impl<S, U> AsyncFilter<S, U> {
    ghost use Rattle.tower_ware.specs.FilterLends.{AsyncLendsInner};
    ghost use Rattle.std.specs.Borrow.{sem};

    /// Calls the predicate with the request and returns its future. Doesn't call the inner service.
    pub fn check<R>(&mut self, request: R) -> U::Future
    where
        U: AsyncPredicate<R>,
        requires { U.sound self.old.predicate }
        ensures checked { U.checked self.old.predicate request result self.new.predicate }
        ensures can_poll { U.Future.can_poll result }
        ensures sound { U.sound self.new.predicate }
        ensures same { self.new.inner ≡ self.old.inner }
    {
        self.predicate.check(request)
    }

    /// Returns a reference to the inner service.
    pub fn get_ref(&self) -> &S
        ensures { result.now ≡ self.now.inner }
    {
        &self.inner
    }

    /// Returns a mutable reference to the inner service.
    pub fn get_mut(&mut self) -> &mut S
        ensures* writes_back { sem 𝓛 (AsyncLendsInner S.row U.row self.entry result) }
        ensures value { result.now ≡ self.old.inner }
    {
        &mut self.inner
    }

    /// Returns the inner service and drops the predicate.
    pub fn into_inner(self) -> S
    where
        U: Drop,
        ensures { result ≡ self.inner }
    {
        self.inner
    }
}
