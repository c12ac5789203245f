//! `select`: `a` goes by the first plan and `b` by the second. The policy copies each request but 90.

use crate::noted::Twice;
use scripted::report::Report;
use scripted::script::{Numbers, Script};
use std::alloc::AllocError;
use tests_support::service::Scripted;
use tower_retry::hedge::select::Select;

pub fn play(script: &Script<'_>, report: &mut Report<'_>) -> Result<(), AllocError> {
    let second = Scripted::new(&script.stage().others, 'b');
    let select = Select::new(Twice::new(script), script.service('a'), second);
    script.play_alone(report, select, &Numbers)
}
