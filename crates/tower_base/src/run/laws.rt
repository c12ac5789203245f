//! Laws of every run.
ghost use Rattle.tower_base.specs.ServiceRun.{RunsMake, relations};
ghost use Rattle.tower_base.specs.Projection.{DrivesProject, Once, OnceIsSame, Projects};

use crate::run::Contains;
use crate::service::Service;

/// Every run of `drive` is a run of its service. That run makes exactly the requests whose entries are
/// `Called`, in their order.
pub fn law<Request, S, T, U, O>()
where
    S: Service<Request>,
    O: FnMut(T) -> U,
    ensures { RunsMake S.Service S.Future.stepped O.step }
{}

/// Every run of `drive` is a run of the service inside. That run makes there what `goes` gives for each
/// request.
pub fn inside<Request, Passed, L, W, T, U, O>()
where
    L: Service<Passed>,
    W: Contains<Request, Passed, L>,
    O: FnMut(T) -> U,
    ensures { DrivesProject W.Service W.Future.stepped O.step (relations L.Service)
        W.inside W.goes }
{}

/// Projections that pass on each request once compose: what is inside of the inside is inside.
pub fn compose<Request, S: Service<Request>, M: Service<Request>, I: Service<Request>>()
    ensures { (outside : S → M) (inside : M → I)
        → Projects (relations S.Service) (relations M.Service) outside Once
        → Projects (relations M.Service) (relations I.Service) inside Once
        → Projects (relations S.Service) (relations I.Service) (λ s. inside (outside s)) Once }
{}

/// If each request is passed inside once, the inner requests are the outer ones, in their order.
pub fn once<Request>()
    ensures { OnceIsSame Request }
{}
