//! `future_service POLLS [failing] [polled]`: a service `a` that the future `f` gives after so many polls, or the error 7. If it was `polled`, it is
//! polled once, and then only cloned and dropped. `future_service at_once`: one that is there at the first poll, of a future that notes nothing.

use futures::future::{Ready, ready};
use scripted::report::Report;
use scripted::script::{Numbers, Script};
use std::alloc::AllocError;
use tests_support::future::After;
use tests_support::run::is_ready;
use tests_support::service::Scripted;
use tower_base::service::Service;
use tower_util::util::{FutureService, future_service};

// A service that is given at once is as sound as the one that was put in.
#[tactic(auto, using(tower_base::specs::GivesLemmas::gives_only))]
fn given<S: Service<u8>>(service: S) -> FutureService<Ready<Result<S, S::Error>>, S>
    requires { S.sound service }
    ensures { ⟦<FutureService<Ready<Result<S, S::Error>>, S> as Service<u8>>⟧.sound result }
{
    FutureService::new(ready(Ok(service)))
}

pub fn play(script: &Script<'_>, report: &mut Report<'_>) -> Result<(), AllocError> {
    if script.has("at_once") {
        return script.play_alone(report, given(script.service('a')), &Numbers);
    }
    let polls = match script.number(0) {
        Some(polls) if polls < 256 => polls as u8,
        _ => return script.unread(report),
    };
    let answer: Result<Scripted<'_>, u8> = if script.has("failing") {
        Err(7)
    } else {
        Ok(script.service('a'))
    };
    let coming = After::new(script.stage().log, 'f', polls, answer);
    let mut service: FutureService<_, Scripted<'_>> = future_service(coming);
    if script.has("polled") {
        is_ready::<u8, _>(script.solo(), &mut service);
        return script.play_copies(report, service);
    }
    script.play_alone(report, service, &Numbers)
}
