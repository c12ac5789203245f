//! Two attempts, whose answer a contract says by the law of retries. The service and the policy are the test's own, since they state
//! what they do.
ghost use Rattle.std.specs.Prelude.{◌≡◌, ⊤, IfSome, Some, Ok};
ghost use Rattle.futures.specs.declared.task.Poll.TheVariants.{Ready as Answered};
ghost use Rattle.tests_retry.specs.Second.{Asked, IsSecond, reply};

use futures::future::{Future, Ready, ready};
use futures::task::{Context, Poll};
use futures::test::MockTask;
use std::test::Fail;
use tower_base::service::Service;
use tower_retry::retry::{Error, Policy, Retry, law};

// It refuses 0.
#[derive(Clone, Copy)]
struct Refusing;

impl Service<u8> for Refusing {
    type Response = u8;

    type Error = u8;

    type Future = Ready<Result<u8, u8>>;

    ghost ready = { λ _. ⊤ };

    ghost polled = { λ _ answer _. answer ≡ Answered (Ok tt) };

    ghost called = { λ _ request future _. future.0 ≡ Some (reply request) };

    ghost readies = { λ _ _ _. tt };

    fn poll_ready(&mut self, _cx: &mut Context<'_>) -> Poll<Result<(), u8>> {
        Poll::Ready(Ok(()))
    }

    fn call(&mut self, request: u8) -> Ready<Result<u8, u8>> {
        if request == 0 {
            return ready(Err(0));
        }
        ready(Ok(request))
    }
}

// It asks for 1 after an error.
#[derive(Clone, Copy)]
struct OneInstead;

impl Policy<u8, u8, u8> for OneInstead {
    type Future = Ready<()>;

    ghost decided = { λ _ _ result word _ request outcome. Asked result word request outcome };

    ghost cloned = { λ _ request copy _. copy ≡ Some request };

    fn retry(&mut self, request: &mut u8, outcome: &mut Result<u8, u8>) -> Option<Ready<()>> {
        if outcome.is_ok() {
            return None;
        }
        *request = 1;
        Some(ready(()))
    }

    fn clone_request(&mut self, request: &u8) -> Option<u8> {
        Some(*request)
    }
}

// The answer of the first poll.
fn answer(cx: &mut Context<'_>) -> Option<Result<u8, Error<u8>>>
    ensures { IfSome result IsSecond }
{
    law::<OneInstead, Refusing, u8>();
    let mut retry = Retry::new(OneInstead, Refusing);
    let Poll::Ready(Ok(())) = retry.poll_ready(cx) else {
        return None;
    };
    let mut future = retry.call(0);
    match future.poll(cx) {
        Poll::Ready(output) => Some(output),
        Poll::Pending => None,
    }
}

#[test]
fn the_law_says_the_second_answer(rt: HostRuntime) -> Result<(), Fail> {
    let task = MockTask::new(&rt)?;
    let output = task.enter(|cx: &mut Context<'_>| answer(cx));
    assert!(rt; matches!(output, Some(Ok(1))));
    Ok(())
}
