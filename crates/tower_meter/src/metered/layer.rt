//! The layer of `Metered`.
ghost use Rattle.std.specs.Prelude.{◌≡◌, IfOk};
ghost use Rattle.tower_meter.specs.Metered.{MeterLayerView, Made, IsLayerClone};

use crate::meter::Meter;
use crate::meter_core::MeterCore;
use crate::metered::Metered;
use std::alloc::AllocError;
use std::marker::Model;
use tower_base::layer::Layer;
use tower_base::service::Clock;
use tower_latch::Latch;

/// A layer that wraps each service in a `Metered`, all with shares of one meter.
#[derive(Drop)]
pub struct MeterLayer<L, C, K> {
    meter: Meter<L>,
    clock: C,
    kinds: K,
}

impl<L, C, K> Model for MeterLayer<L, C, K> {
    ghost Value = { MeterLayerView L C K };

    ghost view = { λ l. record { latch = l.meter.latch; clock = l.clock; kinds = l.kinds } };
}

impl<L, C, K> MeterLayer<L, C, K> {
    /// Creates a layer whose services are counted at this meter.
    pub fn new(meter: Meter<L>, clock: C, kinds: K) -> MeterLayer<L, C, K>
        ensures { result ≡ record { latch = meter.latch; clock = clock; kinds = kinds } }
    {
        MeterLayer {
            meter,
            clock,
            kinds,
        }
    }
}

impl<S: Drop, L: Latch<MeterCore>, C: Clock, K: Copy> Layer<S> for MeterLayer<L, C, K> {
    type Service = Metered<S, L, C, K>;

    ghost made = { Made L.Latch C.Clock };

    fn layer(&self, service: S) -> Result<Self::Service, AllocError> {
        let meter = self.meter.share()?;
        Ok(Metered::new(service, meter, self.clock.share(), self.kinds))
    }
}

/// A clone has a share of the meter and of the clock. Cloning fails if the latch refuses its share.
impl<L: Latch<MeterCore>, C: Clock, K: Copy> Clone for MeterLayer<L, C, K> {
    ghost is_clone = { IsLayerClone L.Latch C.Clock };

    fn clone(&self) -> Result<MeterLayer<L, C, K>, AllocError> {
        let meter = self.meter.share()?;
        Ok(MeterLayer::new(meter, self.clock.share(), self.kinds))
    }
}
