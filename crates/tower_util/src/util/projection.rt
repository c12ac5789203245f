//! Laws on which requests each service here passes to the services inside it. The Rust has no such module.
ghost use Rattle.tower_base.specs.ServiceRun.{Takes, relations};
ghost use Rattle.tower_base.specs.Projection.{Mapped, Once, Projects};
ghost use Rattle.tower_util.specs.Projections.{ClosureMakes, RunsInOneshot, RunsOfOptional, RunsOfSide, RunsOnceThere};

use crate::util::{
    AndThen, Either, FutureService, MapErr, MapFuture, MapRequest, MapResponse, MapResult, Oneshot,
    Optional, Sealed, Then,
};
use tower_base::service::{Service, Steps};

/// Each call is passed inside once, with the request that the closure makes of its request.
pub fn map_request<S: Service<R2>, F, R1, R2>()
where
    F: FnMut(R1) -> R2 + Drop,
    ensures { Projects (relations ⟦<MapRequest<S, F> as Service<R1>>⟧) (relations S.Service)
        (λ m. m.inner) (Mapped (ClosureMakes F.step)) }
{}

/// Each call is passed inside, once.
pub fn map_response<S: Service<Request>, F, Request, T>()
where
    F: Fn(S::Response) -> T + Copy,
    T: Drop,
    ensures { Projects (relations ⟦<MapResponse<S, F> as Service<Request>>⟧) (relations S.Service)
        (λ m. m.inner) Once }
{}

/// Each call is passed inside, once.
pub fn map_err<S: Service<Request>, F, Request, U>()
where
    F: Fn(S::Error) -> U + Copy,
    U: Drop,
    ensures { Projects (relations ⟦<MapErr<S, F> as Service<Request>>⟧) (relations S.Service)
        (λ m. m.inner) Once }
{}

/// Each call is passed inside, once.
pub fn map_result<S: Service<Request>, F, Request, T, U>()
where
    F: Fn(Result<S::Response, S::Error>) -> Result<T, U> + Copy,
    T: Drop,
    U: From<S::Error> + Drop,
    ensures { Projects (relations ⟦<MapResult<S, F> as Service<Request>>⟧) (relations S.Service)
        (λ m. m.inner) Once }
{}

/// Each call is passed inside, once.
pub fn map_future<R, S: Service<R>, F, T, E, Fut>()
where
    F: FnMut(S::Future) -> Fut + Drop,
    E: From<S::Error> + Drop,
    Fut: Steps<Output = Result<T, E>>,
    T: Drop,
    ensures { Projects (relations ⟦<MapFuture<S, F> as Service<R>>⟧) (relations S.Service)
        (λ m. m.inner) Once }
{}

/// Each call is passed inside, once.
pub fn then<S: Service<Request>, F, Request, Fut, T, U>()
where
    F: Fn(Result<S::Response, S::Error>) -> Fut + Copy,
    Fut: Steps<Output = Result<T, U>>,
    T: Drop,
    U: From<S::Error> + Drop,
    ensures { Projects (relations ⟦<Then<S, F> as Service<Request>>⟧) (relations S.Service)
        (λ m. m.inner) Once }
{}

/// Each call is passed inside, once.
pub fn and_then<S: Service<Request>, F, Request, Fut, T, U>()
where
    F: Fn(S::Response) -> Fut + Copy,
    Fut: Steps<Output = Result<T, U>>,
    T: Drop,
    U: From<S::Error> + Drop,
    ensures { Projects (relations ⟦<AndThen<S, F> as Service<Request>>⟧) (relations S.Service)
        (λ m. m.inner) Once }
{}

/// The side that is present gets each poll and each call, and the side never changes.
pub fn either<R, A, B>()
where
    A: Service<R>,
    B: Service<R, Response = A::Response, Error = A::Error>,
    ensures { (old : _) (action : _) (new : _) → Takes (relations ⟦<Either<A, B> as Service<R>>⟧)
        old action new → RunsOfSide (relations A.Service) (relations B.Service) old action new }
{}

/// If there is a service, it gets each poll and each call. Afterwards there is a service if and only if
/// there was one before.
pub fn optional<T: Service<Request>, Request: Drop>()
    ensures { (old : _) (action : _) (new : _)
        → Takes (relations ⟦<Optional<T> as Service<Request>>⟧) old action new
        → RunsOfOptional T.Service old action new }
{}

/// From the moment at which the future returned the service, each call is passed to it, once.
pub fn future_service<R, F, S>()
where
    F: Steps<Output = Result<S, S::Error>>,
    S: Service<R>,
    ensures { (old : _) (action : _) (new : _)
        → Takes (relations ⟦<FutureService<F, S> as Service<R>>⟧) old action new
        → RunsOnceThere S.Service F.stepped old action new }
{}

/// Each poll of the future polls its service, until the service is called once with the request, or fails.
pub fn oneshot<S: Service<Request>, Request: Drop>()
    ensures { (old : _) (answer : _) (new : _) → ⟦<Oneshot<S, Request> as Steps>⟧.stepped old answer
        new → RunsInOneshot S.Service old.state new.state }
{}

/// Each call is passed inside, once.
pub fn sealed<S: Service<Request>, Request>()
    ensures { Projects (relations ⟦<Sealed<S, Request> as Service<Request>>⟧) (relations S.Service)
        (λ s. s) Once }
{}
