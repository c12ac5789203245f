//! The law of `Steer`.
ghost use Rattle.tower_base.specs.ServiceRun.{relations};
ghost use Rattle.tower_laws.specs.Steer.{EachGetsWhatIsPicked};

use tower_base::service::Service;
use tower_ware::steer::{Picker, Steer};

/// For each run: the run of the service at each index has just the requests for which the picker
/// returned that index, in their order.
pub fn law<S: Service<Req>, F: Picker<S, Req>, Req>()
    ensures { EachGetsWhatIsPicked (relations ⟦<Steer<S, F, Req> as Service<Req>>⟧)
        S.Service F.Picker }
{}
