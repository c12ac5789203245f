//! The bytes of each middleware's service, and of a place for its response.

use crate::fault::Fault;
use crate::flights::NAMES;
use crate::rounds::Course;
use futures::task::Context;
use std::alloc::{AllocError, AllocGlobal};
use std::cell::Cell;
use std::io::Write;
use std::mem::size_of_val;
use std::sync::Wait;
use tower::Service;
use tower::latch::held::Place;

/// Notes how large the service is, and a place for its response. It calls nothing, so that a line of the
/// benchmark has the only calls of its stack, which may be compiled into its loop.
#[derive(Drop)]
struct Sizes {
    service: Cell<usize>,
    place: Cell<usize>,
}

impl Course for Sizes {
    fn run<S: Service<u64, Response = u64>>(
        &self,
        _cx: &mut Context<'_>,
        service: S,
    ) -> Result<u64, AllocError> {
        self.service.set(size_of_val(&service));
        self.place.set(size_of_val(&Place::<S::Future>::empty()));
        Ok(0)
    }
}

/// Writes a line for each middleware, over a service of no bytes whose responses take 16.
pub fn write<R, O>(rt: R, cx: &mut Context<'_>, out: &mut O) -> Result<(), Fault>
where
    R: Wait + AllocGlobal + Copy,
    O: Write,
{
    for (name, flight) in NAMES {
        let sizes = Sizes {
            service: Cell::new(0),
            place: Cell::new(0),
        };
        flight.run(rt, cx, &sizes).map_err(|_| Fault::Memory)?;
        let (service, place) = (sizes.service.get(), sizes.place.get());
        writeln!(out, "{name}: service {service}, place {place}").map_err(|_| Fault::CannotWrite)?;
    }
    Ok(())
}
