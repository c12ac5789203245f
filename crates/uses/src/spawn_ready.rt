//! `SpawnReady`, whose task runs in a pool.

use crate::tell;
use futures::executor::LocalPool;
use futures::future::{Ready, ok};
use futures::task::{Context, Doorbell, Poll};
use std::alloc::AllocGlobal;
use std::convert::Infallible;
use std::io;
use std::random::RandomSource;
use std::sync::Wait;
use tower::spawn_ready::SpawnReady;
use tower::{Service, ServiceExt};

/// A service that isn't ready at its first poll.
#[derive(Drop)]
struct Cold {
    is_warm: bool,
}

impl Service<u32> for Cold {
    type Response = u32;

    type Error = Infallible;

    type Future = Ready<Result<u32, Infallible>>;

    // It may always be called.
    ghost readies = { λ _ _ _. tt };

    fn poll_ready(&mut self, cx: &mut Context<'_>) -> Poll<Result<(), Infallible>> {
        if self.is_warm {
            return Poll::Ready(Ok(()));
        }
        self.is_warm = true;
        cx.yield_now()
    }

    fn call(&mut self, request: u32) -> Self::Future {
        ok(request)
    }
}

/// Calls a service once it has become ready in a task of the pool.
pub fn warm_up<R>(rt: R) -> io::Result<()>
where
    R: Wait + RandomSource + AllocGlobal + Print + Copy,
{
    let mut pool = LocalPool::with_doorbell(&rt, Doorbell::parking())?;
    let cold = Cold { is_warm: false };
    let service = SpawnReady::new(rt, rt.alloc(), cold, pool.spawner()?)?;
    let answer = pool.run_until(&rt, service.oneshot(1))?;
    tell(rt, "spawn_ready", answer)
}
