//! `oneshot REQUEST` and `ready_oneshot`: futures over a service `a`. `service_fn`: a closure `f`, which answers a third of each request after a poll.

use scripted::report::Report;
use scripted::script::Script;
use std::alloc::AllocError;
use tests_support::future::After;
use tests_support::service::Scripted;
use tower_util::util::{Oneshot, ReadyOneshot, service_fn};

pub fn play(script: &Script<'_>, report: &mut Report<'_>) -> Result<(), AllocError> {
    match script.number(0) {
        Some(request) if request < 256 => {
            let shot = Oneshot::new(script.service('a'), request as u8);
            script.play_future(report, shot)
        }
        _ => script.unread(report),
    }
}

pub fn play_ready(script: &Script<'_>, report: &mut Report<'_>) -> Result<(), AllocError> {
    let waiting = ReadyOneshot::<Scripted<'_>, u8>::new(script.service('a'));
    script.play_future(report, waiting)
}

pub fn play_closure(script: &Script<'_>, report: &mut Report<'_>) -> Result<(), AllocError> {
    let log = script.stage().log;
    let service = service_fn(|x: u8| {
        log.note(format_args!("f asked {x}"));
        After::new(log, 'n', 1, Ok::<u8, u8>(x / 3))
    });
    script.play(report, service)
}
