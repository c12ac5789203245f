//! `buffer PLACES`, and `buffer_round_a_limit PLACES PERMITS`: round a limit of so many permits. Each step at the mail is noted.
ghost use Rattle.std.specs.Prelude.{◌≡◌, ◌<◌};

use crate::mail::{Counts, Mail, Named, Probe};
use crate::parcel::{Opens, Parcels};
use crate::worker::Posting;
use scripted::report::Report;
use scripted::script::{Requests, Script};
use std::alloc::AllocError;
use std::fmt::{Debug, Display};
use std::sync::Wait;
use tower_base::service::{Service, Steps};
use tower_buffer::buffer::{Buffer, Error, MailCore, Worker};
use tower_latch::held::Pollable;
use tower_latch::{Guarded, Latch};
use tower_limit::limit::ConcurrencyLimit;

pub fn play<R: Wait + Copy>(
    rt: R,
    script: &Script<'_>,
    report: &mut Report<'_>,
) -> Result<(), AllocError> {
    let counts = Counts::new();
    let parcels = Parcels { left: &counts.left };
    let service = Opens {
        inner: script.service('s'),
    };
    match script.number(0) {
        Some(places) if places > 0 => guarded(
            rt,
            script,
            report,
            &counts,
            &parcels,
            service,
            places as usize,
        ),
        _ => script.unread(report),
    }
}

pub fn play_round_a_limit<R: Wait + Copy>(
    rt: R,
    script: &Script<'_>,
    report: &mut Report<'_>,
) -> Result<(), AllocError> {
    let counts = Counts::new();
    let parcels = Parcels { left: &counts.left };
    let (Some(places), Some(permits)) = (script.number(0), script.number(1)) else {
        return script.unread(report);
    };
    let service = script.service('s');
    let Ok(limit) = ConcurrencyLimit::new(rt, script.alloc(), service, permits as usize) else {
        return script.over(report, "out of memory");
    };
    if places > 0 {
        let service = Opens { inner: limit };
        guarded(
            rt,
            script,
            report,
            &counts,
            &parcels,
            service,
            places as usize,
        )
    } else {
        script.unread(report)
    }
}

// Behind a latch of so many places.
fn guarded<R, Q, N, S, E>(
    rt: R,
    script: &Script<'_>,
    report: &mut Report<'_>,
    counts: &Counts,
    requests: &N,
    service: S,
    places: usize,
) -> Result<(), AllocError>
where
    R: Wait + Copy,
    Q: Drop,
    N: Requests<Q>,
    S: Service<Q, Response = u8, Error = E>,
    E: Clone + Debug + Display,
    requires places { 0 < places }
    requires same { (x y : E) → E.is_clone x y → y ≡ x }
    requires sound { S.sound service }
{
    let core: MailCore<Q, Pollable<S::Future>, E> = MailCore::new(script.alloc(), places);
    let Ok(guarded) = Guarded::new(rt, script.alloc(), core) else {
        drop(service);
        return script.over(report, "out of memory");
    };
    let probe: Probe<Q, Pollable<S::Future>, E, _> = Probe::new(guarded.share()?);
    let latch = Named::new(script.stage().log, counts, guarded);
    over_latch(script, report, counts, requests, service, latch, probe)
}

// Over this latch. The probe is a share of its mail.
fn over_latch<Q, N, S, E, L, M>(
    script: &Script<'_>,
    report: &mut Report<'_>,
    counts: &Counts,
    requests: &N,
    service: S,
    latch: L,
    probe: M,
) -> Result<(), AllocError>
where
    Q: Drop,
    N: Requests<Q>,
    S: Service<Q, Response = u8, Error = E>,
    E: Clone + Debug + Display,
    L: Latch<MailCore<Q, Pollable<S::Future>, E>>,
    M: Mail + Drop,
    requires { S.sound service }
{
    let made: Result<(Buffer<Q, S::Future, E, L>, Worker<S, Q, S::Future, E, L>), AllocError> =
        Buffer::with_latch(latch, service);
    let Ok((buffer, worker)) = made else {
        return script.over(report, "out of memory");
    };
    played::<Q, N, Buffer<Q, S::Future, E, L>, E, Worker<S, Q, S::Future, E, L>, M>(
        script, report, counts, requests, buffer, worker, probe,
    )
}

fn played<Q, N, B, E, W, M>(
    script: &Script<'_>,
    report: &mut Report<'_>,
    counts: &Counts,
    requests: &N,
    buffer: B,
    worker: W,
    probe: M,
) -> Result<(), AllocError>
where
    Q: Drop,
    N: Requests<Q>,
    B: Service<Q, Response = u8, Error = Error<E>> + Clone,
    E: Clone + Debug + Display,
    W: Steps<Output = ()>,
    M: Mail + Drop,
    requires buffer { B.sound buffer }
    requires worker { W.can_poll worker }
    requires clones { (x y : B) → B.is_clone x y → B.sound x → B.sound y }
{
    let mut posting = Posting::new(script, counts, worker, probe);
    script.play_with(report, buffer, requests, &mut posting)
}
