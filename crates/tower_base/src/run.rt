//! Runs of a service, and the runs that they make of a service inside it. The Rust has no such module.
ghost use Rattle.std.specs.Prelude.{List};
ghost use Rattle.tower_base.specs.ServiceRun.{relations};
ghost use Rattle.tower_base.specs.Projection.{Projects};

mod laws;

use crate::service::Service;
pub use laws::{compose, inside, law, once};

/// A service that calls the service `L` inside it, with requests of type `Passed`.
///
/// A layer of your own implements it by two ghost lines and a projection. `ProjectionLemmas` composes
/// that projection with the one of the wrapped service.
pub trait Contains<Request, Passed, L: Service<Passed>>: Service<Request> {
    // The service inside.
    ghost inside: { Self → L };

    // A call with the request makes these requests inside.
    ghost goes: { Request → List Passed → Type 0 };

    // Each poll and each call is a run inside.
    ghost projects: { Projects (relations Self.Service) (relations L.Service) inside goes };
}
