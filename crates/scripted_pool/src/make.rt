//! `make_balance WORD .. [layer]`: makes balancers over discoveries. Each one that is made is polled once and dropped, and the response is how many
//! endpoints it has. The maker `m` is polled by the first plan; an odd target is refused after a pending poll.
ghost use Rattle.std.specs.Prelude.{◌≡◌, Ok, true, refl, IsSome};
ghost use Rattle.futures.specs.declared.task.Poll.TheVariants.{Ready};
ghost use Rattle.tower_base.specs.AnswersLemmas.{answered_ok};
ghost use Rattle.tower_pool.specs.declared.balance.error.MakeError.TheVariants.{Inner};

use crate::around::{Around, words_of};
use crate::findings::{Changes, Findings};
use crate::fleet::Fleet;
use crate::words::Words;
use futures::task::{Context, Poll};
use scripted::report::Report;
use scripted::script::{Numbers, Script};
use std::alloc::{AllocError, Global};
use tests_support::future::After;
use tests_support::log::Log;
use tests_support::script::Script as Plan;
use tests_support::service::Scripted;
use tower_base::layer::Layer;
use tower_base::service::{Service, Steps};
use tower_pool::balance::MakeError;
use tower_pool::balance::p2c::{MakeBalance, MakeBalanceLayer};

// Gives a discovery after a pending poll.
#[derive(Clone, Drop)]
struct Maker<'a> {
    inner: Scripted<'a>,
    log: &'a Log,
    fleet: &'a Fleet<'a>,
    findings: &'a Findings,
}

impl<'a> Maker<'a> {
    fn new(plan: &'a Plan<'a>, fleet: &'a Fleet<'a>, findings: &'a Findings) -> Maker<'a> {
        Maker {
            inner: Scripted::new(plan, 'm'),
            log: fleet.log,
            fleet,
            findings,
        }
    }
}

impl<'a> Service<u8> for Maker<'a> {
    type Response = Changes<'a, u8>;

    type Error = u8;

    type Future = After<'a, Result<Changes<'a, u8>, u8>>;

    ghost ready = { λ m. ⟦<Scripted<'a> as Service<u8>>⟧.ready m.inner };

    ghost polled = { λ old answer new. ⟦<Scripted<'a> as Service<u8>>⟧.polled old.inner answer new.inner };

    ghost called = { λ _ _ future _. IsSome future.answer };

    ghost readies = { λ old new p. p refl };

    fn poll_ready(&mut self, cx: &mut Context<'_>) -> Poll<Result<(), u8>> {
        self.inner.poll_ready(cx)
    }

    fn call(&mut self, target: u8) -> After<'a, Result<Changes<'a, u8>, u8>> {
        self.log.note(format_args!("m called {target}"));
        let answer = if target % 2 == 1 {
            Err(target)
        } else {
            Ok(Changes::new(self.fleet, self.findings))
        };
        After::new(self.log, 'f', 1, answer)
    }
}

type Makes<'a> = MakeBalance<Maker<'a>, Words<'a>, u8, u16>;

// Polls each balancer once.
#[derive(Clone, Drop)]
struct PollsOnce<'a> {
    inner: Makes<'a>,
}

#[derive(Drop)]
struct PollingOnce<'a> {
    inner: <Makes<'a> as Service<u8>>::Future,
}

impl<'a> Steps for PollingOnce<'a> {
    type Output = Result<usize, MakeError<u8>>;

    ghost can_poll = { λ p. ⟦<<Makes<'a> as Service<u8>>::Future as Steps>⟧.can_poll p.inner };

    fn step(&mut self, cx: &mut Context<'_>) -> Poll<Result<usize, MakeError<u8>>> {
        match self.inner.step(cx) {
            Poll::Ready(Ok(balance)) => {
                let mut balance = balance;
                let _ = balance.poll_ready(cx);
                Poll::Ready(Ok(balance.len()))
            }
            Poll::Ready(Err(error)) => Poll::Ready(Err(error)),
            Poll::Pending => Poll::Pending,
        }
    }
}

impl<'a> Service<u8> for PollsOnce<'a> {
    type Response = usize;

    type Error = MakeError<u8>;

    type Future = PollingOnce<'a>;

    ghost sound = { λ m. ⟦<Makes<'a> as Service<u8>>⟧.sound m.inner };

    ghost ready = { λ m. ⟦<Makes<'a> as Service<u8>>⟧.ready m.inner };

    ghost polled = { λ old answer new. ⟦<Makes<'a> as Service<u8>>⟧.polled old.inner answer new.inner };

    ghost readies = { λ old new p. p.polled (answered_ok Inner p.inner tt p.answers) };

    fn poll_ready(&mut self, cx: &mut Context<'_>) -> Poll<Result<(), MakeError<u8>>> {
        self.inner.poll_ready(cx)
    }

    fn call(&mut self, target: u8) -> PollingOnce<'a> {
        PollingOnce {
            inner: self.inner.call(target),
        }
    }
}

fn made<'a>(
    alloc: Global,
    is_layered: bool,
    maker: Maker<'a>,
    words: Words<'a>,
) -> Result<Makes<'a>, AllocError> {
    if is_layered {
        let layer = MakeBalanceLayer::new(alloc, words);
        return layer.clone()?.layer(maker);
    }
    Ok(MakeBalance::new(alloc, maker, words))
}

pub fn play(script: &Script<'_>, report: &mut Report<'_>) -> Result<(), AllocError> {
    let alloc = script.alloc();
    let words = words_of(script)?;
    let fleet = Fleet::new(script.stage().log);
    let findings = Findings::new(alloc);
    let mut around = Around {
        alloc,
        fleet: &fleet,
        findings: &findings,
    };
    let maker = Maker::new(&script.stage().script, &fleet, &findings);
    let words = Words::new(&script.stage().others, words.as_slice());
    match made(alloc, script.has("layer"), maker, words) {
        Ok(inner) => script.play_with(report, PollsOnce { inner }, &Numbers, &mut around),
        Err(AllocError) => script.over(report, "out of memory"),
    }
}
