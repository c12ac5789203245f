//! `load_shed [layer]`, and `load_shed_places` over a maker, whose requests are places.

use scripted::report::Report;
use scripted::script::{Places, Script};
use std::alloc::AllocError;
use tests_support::service::{Maker, Scripted};
use tower_base::layer::Layer;
use tower_ware::load_shed::{LoadShed, LoadShedLayer, law};

pub fn play(script: &Script<'_>, report: &mut Report<'_>) -> Result<(), AllocError> {
    let service = script.service('s');
    let service = if script.has("layer") {
        LoadShedLayer::new().layer(service)?
    } else {
        LoadShed::new(service)
    };
    law::<Scripted<'_>, u8>();
    script.play_always(report, service)
}

pub fn play_places(script: &Script<'_>, report: &mut Report<'_>) -> Result<(), AllocError> {
    let stage = script.stage();
    let service = LoadShed::new(Maker::new(&stage.script, 'm', &stage.others, 's'));
    let places = Places {
        plan: &stage.script,
        letter: 'p',
    };
    script.play_alone(report, service, &places)
}
