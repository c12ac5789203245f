//! `shared [into_service]`: gives clones of `a`, by itself or as the service that it is as a maker. `as_service` and `into_service`: a maker `m` of
//! services as a service, by a loan and by value.

use scripted::report::Report;
use scripted::script::{Places, Script};
use std::alloc::AllocError;
use tests_support::service::{Maker, Target};
use tower_util::make::{MakeService, Shared};

pub fn play(script: &Script<'_>, report: &mut Report<'_>) -> Result<(), AllocError> {
    let shared = Shared::new(script.service('a'));
    if script.has("into_service") {
        let service = MakeService::<u8, u8>::into_service(shared);
        return script.play(report, service);
    }
    script.play(report, shared)
}

fn maker<'a>(script: &Script<'a>) -> Maker<'a> {
    let stage = script.stage();
    Maker::new(&stage.script, 'm', &stage.others, 's')
}

// Requests whose drop is noted.
fn places<'a>(script: &Script<'a>) -> Places<'a> {
    Places {
        plan: &script.stage().script,
        letter: 'p',
    }
}

pub fn play_lent(script: &Script<'_>, report: &mut Report<'_>) -> Result<(), AllocError> {
    let mut maker = maker(script);
    let lent = MakeService::<Target<'_>, u8>::as_service(&mut maker);
    script.play_alone(report, lent, &places(script))
}

pub fn play_maker(script: &Script<'_>, report: &mut Report<'_>) -> Result<(), AllocError> {
    let service = MakeService::<Target<'_>, u8>::into_service(maker(script));
    script.play_alone(report, service, &places(script))
}
