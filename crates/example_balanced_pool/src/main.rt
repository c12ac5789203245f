//! A balanced pool: servers come and go, and each request goes to the one of two that are drawn which has
//! fewer requests pending. Before the balancer stand a buffer, retries with a budget, a timeout and a
//! limit. Their clock is one of timers, so the pool sleeps while it waits.
//!
//! The check covers this program as it is cut: `main` makes the balancer; `buffered`, over any service,
//! the buffer; `retried` and `timed` the layers around any service. In one function they are refused, as
//! too many types.
#![tactic(auto)]

ghost use Rattle.std.specs.Prelude.{◌≡◌};

mod endpoint;
mod policy;

use endpoint::{Directory, Endpoint, Get, News};
use futures::executor::LocalPool;
use futures::future::Future;
use futures::task::Doorbell;
use policy::{IsBusy, WhileBusy};
use std::alloc::{AllocError, AllocGlobal};
use std::cell::Cell;
use std::fmt::Display;
use std::io;
use std::random::RandomSource;
use std::sync::Wait;
use tower::balance::p2c::Balance;
use tower::buffer::Buffer;
use tower::discover::Change;
use tower::load::{CompleteOnResponse, PendingRequestsDiscover};
use tower::retry::backoff::{ExponentialBackoffMaker, MakeBackoff};
use tower::retry::budget::TpsBudget;
use tower::service::{Clock, Polled};
use tower::util::Sealed;
use tower::{Service, ServiceBuilder, ServiceExt};
use tower_time::Timers;

// Asks for three pages after each change, while the pool runs the buffer's worker. `Sealed` keeps the
// client sound from one call to the next.
fn ask_all<R, W, S>(rt: &R, news: &News, mut pool: LocalPool<W>, client: S) -> io::Result<()>
where
    R: Wait + RandomSource + AllocGlobal + Print,
    W: Future<Output = ()>,
    S: Service<Get, Response = u64>,
    S::Error: Display,
    requires { S.sound client }
{
    let mut client = Sealed::new(client);
    let mut page: u64 = 0;
    let changes = [
        Change::Insert(8001, Endpoint::new()),
        Change::Insert(8002, Endpoint::new()),
        Change::Remove(8001),
    ];
    for change in changes {
        match &change {
            Change::Insert(port, _) => println!(rt; "{port} comes")?,
            Change::Remove(port) => println!(rt; "{port} goes")?,
        }
        news.set(Some(change));
        for _ in 0..3 {
            page = page.saturating_add(1);
            let answer = match pool.run_until(rt, client.ready())? {
                Ok(client) => pool.run_until(rt, Polled::new(client.call(Get { page })))?,
                Err(error) => Err(error),
            };
            match answer {
                Ok(bytes) => println!(rt; "  page {page}: {bytes} bytes")?,
                Err(error) => println!(rt; "  page {page}: {error}")?,
            }
        }
    }
    Ok(())
}

// The timeout and the limit, around any service.
fn timed<R, W, S, C>(rt: R, news: &News, pool: LocalPool<W>, inner: S, clock: C) -> io::Result<()>
where
    R: Wait + RandomSource + AllocGlobal + Print + Copy,
    W: Future<Output = ()>,
    S: Service<Get, Response = u64>,
    S::Error: Display,
    C: Clock,
    requires { S.sound inner }
{
    let client = ServiceBuilder::new()
        .timeout(5_000_000_000, clock)
        .concurrency_limit(rt, rt.alloc(), 4)
        .service(inner)?;
    ask_all(&rt, news, pool, client)
}

// The retries, around any buffer, and the pool, which runs its worker.
fn retried<R, W, B, C>(rt: R, news: &News, buffer: B, worker: W, clock: C) -> io::Result<()>
where
    R: Wait + RandomSource + AllocGlobal + Print + Copy,
    W: Future<Output = ()> + Drop,
    B: Service<Get, Response = u64> + Clone,
    B::Error: IsBusy + Display,
    C: Clock,
    requires sound { B.sound buffer }
    requires clones { (x y : B) → B.is_clone x y → B.sound x → B.sound y }
    requires can_poll { W.can_poll worker }
{
    let alloc = rt.alloc();
    let pool = LocalPool::with_doorbell(&rt, Doorbell::parking())?;
    if pool.spawner()?.spawn(worker).is_err() {
        return Err(AllocError.into());
    }
    let retries = Cell::new(0);
    let policy = WhileBusy {
        budget: TpsBudget::with_clock(rt, alloc, clock.share())?,
        backoff: ExponentialBackoffMaker::with_clock(clock.share()).make_backoff()?,
        retries: &retries,
    };
    let client = ServiceBuilder::new().retry(policy).service(buffer)?;
    timed(rt, news, pool, client, clock)?;
    println!(rt; "{} requests were made again", retries.get())
}

// The buffer, around any service.
fn buffered<R, S, C>(rt: R, news: &News, service: S, clock: C) -> io::Result<()>
where
    R: Wait + RandomSource + AllocGlobal + Print + Copy,
    S: Service<Get, Response = u64>,
    S::Error: IsBusy + Display + Clone,
    C: Clock,
    requires sound { S.sound service }
    requires same { (x y : S.Error) → S.Error.is_clone x y → y ≡ x }
{
    match Buffer::pair(rt, rt.alloc(), service, 8) {
        Ok((buffer, worker)) => retried(rt, news, buffer, worker, clock),
        Err(AllocError) => Err(AllocError.into()),
    }
}

fn main(rt: HostRuntime) -> io::Result<()> {
    let (alloc, news) = (rt.alloc(), Cell::new(None));
    let directory = Directory { news: &news };
    let counted = PendingRequestsDiscover::new(rt, alloc, directory, CompleteOnResponse);
    let balance = Balance::new(alloc, counted);
    let timers = Timers::new(rt, alloc)?;
    timers.beside(&rt, || buffered(rt, &news, balance, timers.clock()))
}
