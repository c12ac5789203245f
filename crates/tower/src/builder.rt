//! A builder that stacks layers: the Rust's `tower::builder`.
ghost use Rattle.std.specs.Prelude.{◌≡◌, ◌≢◌, ◌<◌, IfOk, Some, None};
ghost use Rattle.tower_util.specs.declared.util.either.Either.TheVariants.{Left, Right};

use crate::buffer::BufferLayer;
use crate::filter::{AsyncFilterLayer, FilterLayer};
use crate::layer::util::{Identity, Stack};
use crate::layer::{Layer, LayerFn, layer_fn};
use crate::limit::{ConcurrencyLimitLayer, RateLimitLayer};
use crate::load_shed::LoadShedLayer;
use crate::meter::{Meter, MeterLayer, TracedLayer};
use crate::retry::RetryLayer;
use crate::timeout::TimeoutLayer;
use crate::util::{
    AndThenLayer, Either, MapErrLayer, MapFutureLayer, MapRequestLayer, MapResponseLayer,
    MapResultLayer, ServiceFn, ThenLayer, option_layer, service_fn,
};
use std::alloc::{AllocError, Global};
use std::marker::Model;
use std::sync::Wait;
use tower_base::service::{Clock, Service};

/// A builder of a stack of layers, the first of which is outermost: the Rust's `tower::ServiceBuilder`.
///
/// Contracts see the builder as the one layer that it amounts to. A layer that is added goes inside those
/// that are there, so it is applied before them.
#[derive(Clone, Drop)]
pub struct ServiceBuilder<L> {
    layer: L,
}

impl<L> Model for ServiceBuilder<L> {
    ghost Value = { L };

    ghost view = { λ b. b.layer };
}

impl ServiceBuilder<Identity> {
    /// Creates a builder without layers.
    pub fn new() -> ServiceBuilder<Identity> {
        ServiceBuilder {
            layer: Identity::new(),
        }
    }
}

impl Default for ServiceBuilder<Identity> {
    fn default() -> ServiceBuilder<Identity> {
        ServiceBuilder::new()
    }
}

impl<L> ServiceBuilder<L> {
    /// Adds a layer, inside those that are there.
    pub fn layer<T>(self, layer: T) -> ServiceBuilder<Stack<T, L>>
        ensures { result ≡ record { inner = layer; outer = self } }
    {
        ServiceBuilder {
            layer: Stack::new(layer, self.layer),
        }
    }

    /// Adds the layer, if there is one.
    pub fn option_layer<T>(self, layer: Option<T>) -> ServiceBuilder<Stack<Either<T, Identity>, L>>
        ensures { result ≡ record {
          inner = elim layer
              [ Some l ↦ Left l | None ↦ Right (record {}) ];
          outer = self;
        } }
    {
        self.layer(option_layer(layer))
    }

    /// Adds a layer that is made from a closure.
    pub fn layer_fn<F>(self, f: F) -> ServiceBuilder<Stack<LayerFn<F>, L>>
        ensures { result ≡ record { inner = f; outer = self } }
    {
        self.layer(layer_fn(f))
    }

    /// Adds a limit on the time that a response may take, `duration` nanoseconds of the clock.
    pub fn timeout<C: Clock>(
        self,
        duration: u64,
        clock: C,
    ) -> ServiceBuilder<Stack<TimeoutLayer<C>, L>>
        ensures { result
            ≡ record { inner = record { duration = duration; clock = clock }; outer = self } }
    {
        self.layer(TimeoutLayer::new(duration, clock))
    }

    /// Adds a queue of `bound` messages, whose worker is spawned on the executor. Requires what
    /// `Buffer::fits` tests, and that a clone of an error equals the error.
    pub fn buffer<Request, E: Clone, X, R>(
        self,
        rt: R,
        alloc: Global,
        bound: usize,
        executor: X,
    ) -> ServiceBuilder<Stack<BufferLayer<Request, E, X, R>, L>>
        requires positive { 0 < bound }
        requires same { (x y : E) → E.is_clone x y → y ≡ x }
        ensures { result
            ≡ record { inner = record { bound = bound; executor = executor }; outer = self } }
    {
        self.layer(BufferLayer::new(rt, alloc, bound, executor))
    }

    /// Adds a limit of `max` calls in flight. Each service that the layer makes has its own limit.
    pub fn concurrency_limit<R: Wait + Copy>(
        self,
        rt: R,
        alloc: Global,
        max: usize,
    ) -> ServiceBuilder<Stack<ConcurrencyLimitLayer<R>, L>>
        ensures { result ≡ record { inner = max; outer = self } }
    {
        self.layer(ConcurrencyLimitLayer::new(rt, alloc, max))
    }

    /// Adds a limit of `num` calls in `per` nanoseconds of the clock. Requires what `Rate::fits` tests.
    pub fn rate_limit<C: Clock>(
        self,
        alloc: Global,
        num: u64,
        per: u64,
        clock: C,
    ) -> ServiceBuilder<Stack<RateLimitLayer<C>, L>>
        requires num { num ≢ 0 }
        requires per { per ≢ 0 }
        ensures { result
            ≡ record { inner = record { num = num; per = per; clock = clock }; outer = self } }
    {
        self.layer(RateLimitLayer::new(alloc, num, per, clock))
    }

    /// Adds load shedding: a call fails with `Overloaded` if the inner service isn't ready.
    pub fn load_shed(self) -> ServiceBuilder<Stack<LoadShedLayer, L>>
        ensures { result ≡ record { inner = record {}; outer = self } }
    {
        self.layer(LoadShedLayer::new())
    }

    /// Adds counts of what passes, at this meter. The Rust has no such method.
    pub fn metered<M, C, K>(
        self,
        meter: Meter<M>,
        clock: C,
        kinds: K,
    ) -> ServiceBuilder<Stack<MeterLayer<M, C, K>, L>>
        ensures { result ≡ record {
          inner = record { latch = meter.latch; clock = clock; kinds = kinds };
          outer = self;
        } }
    {
        self.layer(MeterLayer::new(meter, clock, kinds))
    }

    /// Tells of each call and answer, for logs. The Rust has no such method.
    pub fn traced<C, N>(self, clock: C, trace: N) -> ServiceBuilder<Stack<TracedLayer<C, N>, L>>
        ensures { result
            ≡ record { inner = record { clock = clock; trace = trace }; outer = self } }
    {
        self.layer(TracedLayer::new(clock, trace))
    }

    /// Adds retries, which clones of the policy decide.
    pub fn retry<P>(self, policy: P) -> ServiceBuilder<Stack<RetryLayer<P>, L>>
        ensures { result ≡ record { inner = policy; outer = self } }
    {
        self.layer(RetryLayer::new(policy))
    }

    /// Adds a filter, which passes on only the requests that the predicate accepts.
    pub fn filter<P>(self, predicate: P) -> ServiceBuilder<Stack<FilterLayer<P>, L>>
        ensures { result ≡ record { inner = predicate; outer = self } }
    {
        self.layer(FilterLayer::new(predicate))
    }

    /// Adds a filter as `filter` does, by a predicate that returns a future.
    pub fn filter_async<P>(self, predicate: P) -> ServiceBuilder<Stack<AsyncFilterLayer<P>, L>>
        ensures { result ≡ record { inner = predicate; outer = self } }
    {
        self.layer(AsyncFilterLayer::new(predicate))
    }

    /// Adds a closure that changes each request.
    pub fn map_request<F, R1, R2>(self, f: F) -> ServiceBuilder<Stack<MapRequestLayer<F>, L>>
    where
        F: FnMut(R1) -> R2 + Clone,
        ensures { result ≡ record { inner = record { f = f }; outer = self } }
    {
        self.layer(MapRequestLayer::new(f))
    }

    /// Adds a closure that changes each response.
    pub fn map_response<F>(self, f: F) -> ServiceBuilder<Stack<MapResponseLayer<F>, L>>
        ensures { result ≡ record { inner = record { f = f }; outer = self } }
    {
        self.layer(MapResponseLayer::new(f))
    }

    /// Adds a closure that changes each error.
    pub fn map_err<F>(self, f: F) -> ServiceBuilder<Stack<MapErrLayer<F>, L>>
        ensures { result ≡ record { inner = record { f = f }; outer = self } }
    {
        self.layer(MapErrLayer::new(f))
    }

    /// Adds a closure that changes each future.
    pub fn map_future<F>(self, f: F) -> ServiceBuilder<Stack<MapFutureLayer<F>, L>>
        ensures { result ≡ record { inner = record { f = f }; outer = self } }
    {
        self.layer(MapFutureLayer::new(f))
    }

    /// Adds a closure that changes each result.
    pub fn map_result<F>(self, f: F) -> ServiceBuilder<Stack<MapResultLayer<F>, L>>
        ensures { result ≡ record { inner = record { f = f }; outer = self } }
    {
        self.layer(MapResultLayer::new(f))
    }

    /// Adds a closure that goes on from each result with a second future.
    pub fn then<F>(self, f: F) -> ServiceBuilder<Stack<ThenLayer<F>, L>>
        ensures { result ≡ record { inner = record { f = f }; outer = self } }
    {
        self.layer(ThenLayer::new(f))
    }

    /// Adds a closure that goes on from each response with a second future.
    pub fn and_then<F>(self, f: F) -> ServiceBuilder<Stack<AndThenLayer<F>, L>>
        ensures { result ≡ record { inner = record { f = f }; outer = self } }
    {
        self.layer(AndThenLayer::new(f))
    }

    /// Returns the layer.
    pub fn into_inner(self) -> L
        ensures { result ≡ self }
    {
        self.layer
    }

    /// Wraps the service in the layers. Returns an error, and drops the service, if allocation fails.
    pub fn service<S>(&self, service: S) -> Result<L::Service, AllocError>
    where
        L: Layer<S>,
        requires { L.can_layer self.now service }
        ensures { IfOk result (λ made. L.made self.now service made) }
    {
        self.layer.layer(service)
    }

    /// Wraps a service that is made from a closure.
    pub fn service_fn<F>(self, f: F) -> Result<L::Service, AllocError>
    where
        L: Layer<ServiceFn<F>> + Drop,
        requires { L.can_layer self (record { f = f }) }
        ensures { IfOk result (λ made. L.made self (record { f = f }) made) }
    {
        self.service(service_fn(f))
    }

    /// Returns the builder itself, which has to be `Clone`.
    pub fn check_clone(self) -> ServiceBuilder<L>
    where
        L: Clone,
        ensures { result ≡ self }
    {
        self
    }

    /// Returns the builder itself, whose service has to be `Clone`.
    pub fn check_service_clone<S>(self) -> ServiceBuilder<L>
    where
        L: Layer<S>,
        L::Service: Clone,
        ensures { result ≡ self }
    {
        self
    }

    /// Returns the builder itself, whose service has to take requests `T` and return responses `U` and
    /// errors `E`.
    pub fn check_service<S, T, U, E>(self) -> ServiceBuilder<L>
    where
        L: Layer<S>,
        L::Service: Service<T, Response = U, Error = E>,
        ensures { result ≡ self }
    {
        self
    }
}

impl<S, L: Layer<S>> Layer<S> for ServiceBuilder<L> {
    type Service = L::Service;

    ghost can_layer = { L.can_layer };

    ghost made = { L.made };

    fn layer(&self, service: S) -> Result<L::Service, AllocError> {
        self.service(service)
    }
}
