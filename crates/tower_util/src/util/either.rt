//! One of two services, layers or futures.
ghost use Rattle.std.specs.Prelude.{◌≡◌};
ghost use Rattle.std.proofs.Common.{rules};
ghost use Rattle.tower_base.specs.Gives.{IsStep, MayGive};
ghost use Rattle.tower_util.specs.Either.{ResponseStirs, Stepped, Stirs};
ghost use Rattle.tower_util.specs.Projections.{EitherGoes, either as either_projects};
ghost use Rattle.tower_util.specs.declared.util.either.Either.TheVariants.{Left, Right};
ghost use Rattle.tower_util.specs.declared.util.either.EitherResponseFuture.TheVariants.{First, Second};

use futures::future::Future;
use futures::task::{Context, Poll};
use std::alloc::AllocError;
use tower_base::layer::{Identity, Layer};
use tower_base::run::Contains;
use tower_base::service::{Service, Steps};

/// One of two services or layers. It is the Rust's `tower::util::Either`.
#[derive(Clone, Copy, Drop)]
pub enum Either<A, B> {
    /// A service or layer of the first type.
    Left(A),
    /// A service or layer of the second type.
    Right(B),
}

impl<R, A, B> Service<R> for Either<A, B>
where
    A: Service<R>,
    B: Service<R, Response = A::Response, Error = A::Error>,
{
    type Response = A::Response;

    type Error = A::Error;

    type Future = EitherResponseFuture<A::Future, B::Future>;

    ghost sound = { elim [ Left a ↦ A.sound a | Right b ↦ B.sound b ] };

    ghost ready = { elim [ Left a ↦ A.ready a | Right b ↦ B.ready b ] };

    ghost needs = { elim [ Left a ↦ A.needs a | Right b ↦ B.needs b ] };

    ghost stirs = { Stirs A.stirs B.stirs };

    // A poll polls the side that is present.
    ghost polled = { λ old answer new. elim old [
      | Left a ↦ (left : A) × A.polled a answer left × (new ≡ Left left)
      | Right b ↦ (left : B) × B.polled b answer left × (new ≡ Right left)
    ] };

    // A call calls the side that is present.
    ghost called = { λ old request future new. elim old [
      | Left a ↦ (left : A) × (inner : _) × A.ready a × A.called a request inner left
          × (future ≡ First inner) × (new ≡ Left left)
      | Right b ↦ (left : B) × (inner : _) × B.ready b × B.called b request inner left
          × (future ≡ Second inner) × (new ≡ Right left)
    ] };

    ghost readies = { elim [
      | Left a ↦ λ new polled. Prim.search rules
      | Right b ↦ λ new polled. Prim.search rules
    ] };

    fn poll_ready(&mut self, cx: &mut Context<'_>) -> Poll<Result<(), A::Error>> {
        match self {
            Either::Left(a) => a.poll_ready(cx),
            Either::Right(b) => b.poll_ready(cx),
        }
    }

    fn call(&mut self, request: R) -> EitherResponseFuture<A::Future, B::Future> {
        match self {
            Either::Left(a) => EitherResponseFuture::First(a.call(request)),
            Either::Right(b) => EitherResponseFuture::Second(b.call(request)),
        }
    }
}

/// An `Either` contains what both sides contain.
impl<R, A, B, Passed, L> Contains<R, Passed, L> for Either<A, B>
where
    L: Service<Passed>,
    A: Contains<R, Passed, L>,
    B: Contains<R, Passed, L, Response = A::Response, Error = A::Error>,
{
    ghost inside = { elim [ Left a ↦ A.inside a | Right b ↦ B.inside b ] };

    ghost goes = { EitherGoes A.goes B.goes };

    ghost projects = { either_projects _ _ _ A.inside B.inside A.goes B.goes A.projects
        B.projects };
}

impl<S, A: Layer<S>, B: Layer<S>> Layer<S> for Either<A, B> {
    type Service = Either<A::Service, B::Service>;

    ghost can_layer = { λ layer service. elim layer
        [ Left a ↦ A.can_layer a service | Right b ↦ B.can_layer b service ] };

    // The layer makes what the side that is present makes.
    ghost made = { λ layer service made. elim layer [
      | Left a ↦ (inner : A.Service) × A.made a service inner × (made ≡ Left inner)
      | Right b ↦ (inner : B.Service) × B.made b service inner × (made ≡ Right inner)
    ] };

    fn layer(&self, service: S) -> Result<Either<A::Service, B::Service>, AllocError> {
        match self {
            Either::Left(a) => Ok(Either::Left(a.layer(service)?)),
            Either::Right(b) => Ok(Either::Right(b.layer(service)?)),
        }
    }
}

/// Returns the layer, or `Identity` if there is none. It is the Rust's `tower::util::option_layer`.
pub fn option_layer<L>(layer: Option<L>) -> Either<L, Identity>
    ensures { result ≡ elim layer [ Some l ↦ Left l | None ↦ Right (record {}) ] }
{
    match layer {
        Some(layer) => Either::Left(layer),
        None => Either::Right(Identity::new()),
    }
}

/// The response future of an `Either`. It is the Rust's `tower::util::future::EitherResponseFuture`.
#[derive(Drop)]
pub enum EitherResponseFuture<A, B> {
    /// The response of a `Left`.
    First(A),
    /// The response of a `Right`.
    Second(B),
}

impl<A: Steps, B: Steps<Output = A::Output>> Future for EitherResponseFuture<A, B> {
    type Output = A::Output;

    ghost can_poll = { elim [ First a ↦ A.can_poll a | Second b ↦ B.can_poll b ] };

    ghost gives = { MayGive (Stepped A.stepped B.stepped) };

    ghost needs = { elim [ First a ↦ A.needs a | Second b ↦ B.needs b ] };

    #[tactic(auto, using(tower_base::specs::GivesLemmas::one_step))]
    fn poll(&mut self, cx: &mut Context<'_>) -> Poll<A::Output>
        requires { ⟦<EitherResponseFuture<A, B> as Future>⟧.can_poll self.old }
        ensures { IsStep (Stepped A.stepped B.stepped)
            ⟦<EitherResponseFuture<A, B> as Future>⟧.can_poll
            ⟦<EitherResponseFuture<A, B> as Future>⟧.needs self.old result self.new cx.old cx.new }
    {
        self.step(cx)
    }
}

impl<A: Steps, B: Steps<Output = A::Output>> Steps for EitherResponseFuture<A, B> {
    type Output = A::Output;

    ghost can_poll = { elim [ First a ↦ A.can_poll a | Second b ↦ B.can_poll b ] };

    ghost needs = { elim [ First a ↦ A.needs a | Second b ↦ B.needs b ] };

    ghost stirs = { ResponseStirs A.stirs B.stirs };

    ghost stepped = { Stepped A.stepped B.stepped };

    fn step(&mut self, cx: &mut Context<'_>) -> Poll<A::Output> {
        match self {
            EitherResponseFuture::First(a) => a.step(cx),
            EitherResponseFuture::Second(b) => b.step(cx),
        }
    }
}
