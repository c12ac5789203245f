//! `reconnect [linked]`: over a maker by the script, whose services go by the other; `linked` begins with a service.

use scripted::report::Report;
use scripted::script::{Numbers, Script};
use std::alloc::AllocError;
use tests_support::service::{Maker, Scripted, Target};
use tower_ware::reconnect::Reconnect;

pub fn play(script: &Script<'_>, report: &mut Report<'_>) -> Result<(), AllocError> {
    let stage = script.stage();
    let maker = Maker::new(&stage.script, 'm', &stage.others, 's');
    let place = Target::new(&stage.script, 'p', 0);
    let service = if script.has("linked") {
        Reconnect::with_connection(Scripted::new(&stage.others, 'a'), maker, place)
    } else {
        Reconnect::new(maker, place)
    };
    script.play_alone(report, service, &Numbers)
}
