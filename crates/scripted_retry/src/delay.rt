//! `delay`: a call waits as many nanoseconds as its request says. `longest_delay`: each waits as many as there are.

use crate::noted::{Longest, Twice};
use scripted::report::Report;
use scripted::script::{Numbers, Script};
use std::alloc::AllocError;
use tower_retry::hedge::delay::{Delay, Policy};

fn played<P: Policy<u8>>(
    script: &Script<'_>,
    report: &mut Report<'_>,
    policy: P,
) -> Result<(), AllocError>
    requires { P.sound policy }
{
    let delay = Delay::new(policy, script.service('s'), script.clock());
    script.play_alone(report, delay, &Numbers)
}

pub fn play(script: &Script<'_>, report: &mut Report<'_>) -> Result<(), AllocError> {
    played(script, report, Twice::new(script))
}

pub fn play_longest(script: &Script<'_>, report: &mut Report<'_>) -> Result<(), AllocError> {
    played(script, report, Longest)
}
