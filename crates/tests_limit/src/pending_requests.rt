//! `tower::load::PendingRequests`: other completions, counts, and discoveries.
ghost use Rattle.std.specs.Prelude.{◌≡◌};

use crate::parts::{Find, Finds, found};
use futures::task::{Poll, Solo};
use std::fmt::Debug;
use std::test::Fail;
use tests_support::checks::Checks;
use tests_support::future::After;
use tests_support::log::Log;
use tests_support::plain::Plain;
use tests_support::run::{awaited, called, stepped, task};
use tests_support::script::Script;
use tests_support::service::Scripted;
use tower_base::service::Service;
use tower_latch::Latch;
use tower_limit::discover::Change;
use tower_limit::load::completion::TrackCompletionFuture;
use tower_limit::load::pending_requests::{Count, CountCore, Handle};
use tower_limit::load::{
    CompleteOnResponse, Error, Load, PendingRequests, PendingRequestsDiscover, TrackCompletion,
};

// Notes the load.
fn tell<S: Load>(log: &Log, service: &S)
where
    S::Metric: Debug,
{
    let load = service.load();
    log.note(format_args!("{load:?}"));
}

// Gives the handle outside with the response.
#[derive(Clone, Copy)]
struct IntoHandle;

impl<L: Latch<CountCore>, V: Drop> TrackCompletion<Handle<L>, V> for IntoHandle {
    type Output = Handle<L>;

    ghost tracked = { λ _ handle _ output. output ≡ handle };

    fn track_completion(&self, handle: Handle<L>, _value: V) -> Handle<L> {
        handle
    }
}

// The response to one call. Its future is dropped.
fn response_of<S: Service<u8>>(solo: &Solo, service: &mut S, request: u8) -> Option<S::Response>
where
    S::Error: Drop,
    requires { S.sound service.old }
    ensures { S.sound service.new }
{
    let future = called(solo, service, request)?;
    awaited(solo, future)?.ok()
}

// Two calls whose responses are handles. The load is told all the while.
fn handles_are_kept<S>(rt: &HostRuntime, log: &Log, mut service: S, want: &str) -> Result<(), Fail>
where
    S: Service<u8> + Load,
    S::Response: Drop,
    S::Error: Drop,
    S::Metric: Debug,
    requires { S.sound service }
{
    let checks = Checks::new(rt.alloc());
    let solo = task(rt)?;
    let first = response_of(&solo, &mut service, 1);
    tell(log, &service);
    let second = response_of(&solo, &mut service, 2);
    tell(log, &service);
    drop(second);
    tell(log, &service);
    drop(first);
    tell(log, &service);
    checks.told(log, want);
    checks.verdict()
}

#[test]
fn requests_end_with_their_handles(rt: HostRuntime) -> Result<(), Fail> {
    let log = Log::new(rt.alloc())?;
    let script = Script::new(&log);
    let inner = Scripted::new(&script, 's');
    handles_are_kept(
        &rt,
        &log,
        PendingRequests::new(rt, rt.alloc(), inner, IntoHandle)?,
        "s ready;s called 1;s(1) ready;s(1) dropped;Count(1);s ready;s called 2;s(2) ready;s(2) dropped;Count(2);\
         Count(1);Count(0);",
    )
}

#[test]
fn completion_is_given_any_handle(rt: HostRuntime) -> Result<(), Fail> {
    let checks = Checks::new(rt.alloc());
    let alloc = rt.alloc();
    let log = Log::new(alloc)?;
    let answer: Result<u8, u8> = Ok(3);
    let response = After::new(&log, 'f', 1, answer);
    let handle = Plain::new(&log, 'h');
    let mut future = TrackCompletionFuture::new(CompleteOnResponse, handle, response);
    let solo = task(&rt)?;
    // A future that isn't known to be pending may not be polled again.
    assert!(rt; stepped(&solo, &mut future).is_pending());
    checks.told(&log, "f pending;");
    checks.holds(matches!(stepped(&solo, &mut future), Poll::Ready(Ok(3))));
    checks.told(&log, "f ready;h dropped;");
    checks.verdict()
}

// The loads before a call and while it is in flight.
fn loads<S>(rt: &HostRuntime, mut service: S) -> Result<(S::Metric, S::Metric), Fail>
where
    S: Service<u8> + Load,
    S::Metric: Drop,
    requires { S.sound service }
{
    let solo = task(rt)?;
    let before = service.load();
    let _response = called(&solo, &mut service, 1).ok_or("not ready")?;
    Ok((before, service.load()))
}

#[test]
fn counts_are_ordered_as_their_numbers(rt: HostRuntime) -> Result<(), Fail> {
    let checks = Checks::new(rt.alloc());
    let log = Log::new(rt.alloc())?;
    let script = Script::new(&log);
    let inner = Scripted::new(&script, 's');
    let service = PendingRequests::new(rt, rt.alloc(), inner, CompleteOnResponse::default())?;
    let (none, one) = loads(&rt, service)?;
    checks.same(&none, &Count::default());
    checks.holds(none < one && none <= one && none <= none && one > none);
    checks.holds(none == none && none != one);
    checks.holds(none.max(one) == one && none.min(one) == none);
    checks.verdict()
}

#[test]
fn each_service_of_a_discovery_has_a_count_of_its_own(rt: HostRuntime) -> Result<(), Fail> {
    let checks = Checks::new(rt.alloc());
    let alloc = rt.alloc();
    let log = Log::new(alloc)?;
    let script = Script::new(&log);
    let list = [
        Find::Busy,
        Find::Insert(4, 'a'),
        Find::Insert(5, 'b'),
        Find::Broken(7),
        Find::Remove(4),
    ];
    let finds = Finds::new(&script, &list);
    let mut discovery = PendingRequestsDiscover::new(rt, alloc, finds, CompleteOnResponse);
    let solo = task(&rt)?;
    checks.holds(found(&solo, &mut discovery).is_pending());
    let Poll::Ready(Some(Ok(Change::Insert(4, mut a)))) = found(&solo, &mut discovery) else {
        return Err("a service".into());
    };
    let Poll::Ready(Some(Ok(Change::Insert(5, b)))) = found(&solo, &mut discovery) else {
        return Err("a service".into());
    };
    let _pending = called(&solo, &mut a, 1).ok_or("not ready")?;
    tell(&log, &a);
    tell(&log, &b);
    checks.holds(matches!(
        found(&solo, &mut discovery),
        Poll::Ready(Some(Err(Error::Inner(7))))
    ));
    checks.holds(matches!(
        found(&solo, &mut discovery),
        Poll::Ready(Some(Ok(Change::Remove(4))))
    ));
    checks.holds(matches!(found(&solo, &mut discovery), Poll::Ready(None)));
    checks.told(
        &log,
        "found Busy;found Insert(4, 'a');found Insert(5, 'b');a ready;a called 1;Count(1);Count(0);\
         found Broken(7);found Remove(4);found the end;",
    );
    checks.verdict()
}

#[test]
fn errors_have_texts(rt: HostRuntime) -> Result<(), Fail> {
    let (memory, inner): (Error<u8>, Error<u8>) = (Error::Memory, Error::Inner(5));
    let text = format!(in rt.alloc(); "{memory}, {inner}")?;
    assert_eq!(rt; text.as_str(), "out of memory, 5");
    Ok(())
}
