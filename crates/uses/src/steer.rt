//! `Steer`, `Either` and `Optional`.

use crate::server::Server;
use crate::tell;
use futures::future::{Ready, ok};
use std::alloc::AllocGlobal;
use std::convert::Infallible;
use std::fmt::Display;
use std::io;
use std::random::RandomSource;
use std::sync::Wait;
use tower::steer::{Picker, Steer};
use tower::util::{Either, Optional, Sealed};
use tower::{BlockOnExt, Service, ServiceBuilder, service_fn};

/// A picker that sends even requests to the first service, and odd ones to the last.
#[derive(Clone, Copy)]
struct ByParity;

impl<S> Picker<S, u32> for ByParity {
    fn pick(&mut self, request: &u32, services: &[S]) -> usize {
        if request % 2 == 0 {
            0
        } else {
            services.len() - 1
        }
    }
}

/// Calls two services in one list: one of a named type, and one made from a closure.
pub fn pick<R>(rt: R) -> io::Result<()>
where
    R: Wait + RandomSource + AllocGlobal + Print + Copy,
{
    let closure = service_fn(|_request: u32| -> Ready<Result<u32, Infallible>> { ok(2) });
    let services = vec![in rt.alloc(); Either::Left(Server(1)), Either::Right(closure)]?;
    let mut service = Steer::new(rt.alloc(), services, ByParity)?;
    tell(rt, "steer", service.block_on_call(&rt, 2)?)?;
    tell(rt, "steer", service.block_on_call(&rt, 3)?)
}

// Makes three calls of any service under a limit of one call at a time.
fn limited<R, S>(rt: R, pair: S) -> io::Result<()>
where
    R: Wait + RandomSource + AllocGlobal + Print + Copy,
    S: Service<u32, Response = u32>,
    S::Error: Display,
    requires { S.sound pair }
{
    let limited = ServiceBuilder::new()
        .concurrency_limit(rt, rt.alloc(), 1)
        .service(pair)?;
    let mut service = Sealed::new(limited);
    for request in 1..4 {
        tell(rt, "limited pair", service.block_on_call(&rt, request)?)?;
    }
    Ok(())
}

/// Calls a pair of services under one limit.
pub fn pick_under_a_limit<R>(rt: R) -> io::Result<()>
where
    R: Wait + RandomSource + AllocGlobal + Print + Copy,
{
    let services = vec![in rt.alloc(); Server(1), Server(2)]?;
    limited(rt, Steer::new(rt.alloc(), services, ByParity)?)
}

/// Calls a service that isn't there, which returns an error.
pub fn miss<R>(rt: R) -> io::Result<()>
where
    R: Wait + RandomSource + AllocGlobal + Print + Copy,
{
    let mut service = Optional::new(None::<Server>);
    tell(rt, "optional", service.block_on_call(&rt, 1)?)
}
