//! A service that may be pending by turns.
ghost use Rattle.std.specs.Prelude.{◌≡◌, Ok, refl};
ghost use Rattle.futures.specs.declared.task.Poll.TheVariants.{Ready};

use futures::task::{Context, Poll};
use scripted::script::Script;
use tests_support::log::Log;
use tests_support::service::Scripted;
use tower_base::service::Service;

/// A scripted service. By turns it is pending unasked at the first poll, at the third, and so on.
#[derive(Drop)]
pub struct Turns<'a> {
    inner: Scripted<'a>,
    log: &'a Log,
    by_turns: bool,
    is_asked: bool,
}

impl<'a> Turns<'a> {
    pub fn new(script: &Script<'a>, by_turns: bool) -> Turns<'a> {
        Turns {
            inner: script.service('s'),
            log: script.stage().log,
            by_turns,
            is_asked: true,
        }
    }
}

impl<'a> Service<u8> for Turns<'a> {
    type Response = u8;

    type Error = u8;

    type Future = <Scripted<'a> as Service<u8>>::Future;

    ghost ready = { λ t. ⟦<Scripted<'a> as Service<u8>>⟧.ready t.inner };

    ghost polled = { λ old answer new. answer ≡ Ready (Ok tt) → ⟦<Scripted<'a> as Service<u8>>⟧.ready new.inner };

    ghost readies = { λ old new p. p refl };

    fn poll_ready(&mut self, cx: &mut Context<'_>) -> Poll<Result<(), u8>> {
        self.is_asked = !self.is_asked;
        if self.by_turns && !self.is_asked {
            self.log.note("s pending");
            return self.log.pending(cx);
        }
        self.inner.poll_ready(cx)
    }

    fn call(&mut self, request: u8) -> Self::Future {
        self.inner.call(request)
    }
}
