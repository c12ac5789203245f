//! A meter.
ghost use Rattle.std.specs.Prelude.{◌≡◌, IfOk};
ghost use Rattle.tower_meter.specs.Buckets.{defaults};
ghost use Rattle.tower_meter.specs.Metered.{IsShare, MeterView, Taken};
ghost use Rattle.tower_meter.specs.declared.meter_core.MeterStep.TheVariants.{Read};
ghost use Rattle.tower_meter.specs.declared.meter_core.MeterReply.TheVariants.{Shown};

use crate::bounds::Bounds;
use crate::meter_core::{MeterCore, MeterReply, MeterStep};
use crate::reading::Reading;
use std::alloc::{AllocError, Global};
use std::marker::Model;
use std::sync::Wait;
use tower_latch::{Guarded, Latch};

/// Counts what passes through the services that are made with it and with its shares.
#[derive(Drop)]
pub struct Meter<L> {
    latch: L,
}

impl<L> Model for Meter<L> {
    ghost Value = { MeterView L };

    ghost view = { λ m. record { latch = m.latch } };
}

impl<R: Wait + Copy> Meter<Guarded<MeterCore, R>> {
    /// Creates a meter that has counted nothing, with the standard bounds of buckets. Returns an error if
    /// allocation fails.
    pub fn new(rt: R, alloc: Global) -> Result<Self, AllocError>
        ensures first { IfOk result
            (λ meter. ⟦<Guarded<MeterCore, R> as Latch<MeterCore>>⟧.is_first meter.latch) }
        ensures bounds { IfOk result (λ meter.
            (⟦<Guarded<MeterCore, R> as Latch<MeterCore>>⟧.terms meter.latch).nanos ≡ defaults) }
    {
        Meter::with_bounds(rt, alloc, Bounds::standard())
    }

    /// Creates a meter that has counted nothing, with buckets of these bounds. Returns an error if
    /// allocation fails.
    pub fn with_bounds(rt: R, alloc: Global, bounds: Bounds) -> Result<Self, AllocError>
        ensures first { IfOk result
            (λ meter. ⟦<Guarded<MeterCore, R> as Latch<MeterCore>>⟧.is_first meter.latch) }
        ensures bounds { IfOk result (λ meter.
            ⟦<Guarded<MeterCore, R> as Latch<MeterCore>>⟧.terms meter.latch ≡ bounds) }
    {
        Ok(Meter::with_latch(Guarded::new(rt, alloc, MeterCore::new(bounds))?))
    }
}

impl<L> Meter<L> {
    /// Creates a meter that counts at the caller's latch.
    pub fn with_latch(latch: L) -> Meter<L>
        ensures { result ≡ record { latch = latch } }
    {
        Meter { latch }
    }

    /// Returns the latch.
    pub fn into_latch(self) -> L
        ensures { result ≡ self.latch }
    {
        self.latch
    }
}

impl<L: Latch<MeterCore>> Meter<L> {
    /// Returns what was counted so far, by one step at the latch. Returns an error, and makes no step, if
    /// allocation fails.
    pub fn read(&self, alloc: Global) -> Result<Reading, AllocError>
        ensures { IfOk result (λ reading. (room : _) × (shown : _)
            × L.gave self.now.latch (Read room) (Shown shown) × (shown.value ≡ reading)) }
    {
        let room = Box::new(alloc, Reading::new(Bounds::standard()))?;
        match self.latch.step(MeterStep::Read(room)) {
            MeterReply::Shown(reading) => Ok(Box::into_inner(reading)),
            _ => unreachable!(),
        }
    }

    /// Returns another handle of this meter. Returns an error if the latch refuses its share.
    pub fn share(&self) -> Result<Meter<L>, AllocError>
        ensures { IfOk result (λ other. IsShare L.Latch self.now.latch other.latch) }
    {
        Ok(Meter::with_latch(self.latch.share()?))
    }

    // A share of the latch, if the latch counts a call by it. Else the call passes uncounted.
    #[inline(always)]
    pub(crate) fn begin(latch: &L) -> Option<L>
        ensures { Taken L.Latch latch.now result }
    {
        let Ok(share) = latch.share() else {
            latch.step(MeterStep::Uncounted);
            return None;
        };
        match latch.step(MeterStep::Call) {
            MeterReply::Done => Some(share),
            _ => {
                latch.step(MeterStep::Uncounted);
                None
            }
        }
    }
}
