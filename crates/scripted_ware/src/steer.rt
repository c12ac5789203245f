//! `steer COUNT PLACE [turning]`: so many services, of which the one at this place is picked, and if it is `turning` the next one next time. `a` goes by the script, `b`, `c` and so on by the other.

use crate::parts::Picking;
use scripted::report::Report;
use scripted::script::Script;
use std::alloc::AllocError;
use tests_support::service::Scripted;
use tower_ware::steer::Steer;

pub fn play(script: &Script<'_>, report: &mut Report<'_>) -> Result<(), AllocError> {
    let (Some(count), Some(place)) = (script.number(0), script.number(1)) else {
        return script.unread(report);
    };
    let alloc = script.alloc();
    let stage = script.stage();
    let mut services = vec![in alloc; script.service('a')]?;
    for number in 1..count {
        let letter = if number == 1 { 'b' } else { 'c' };
        services.push(Scripted::new(&stage.others, letter))?;
    }
    if services.is_empty() {
        return script.unread(report);
    }
    let picker = Picking::new(script, place as usize);
    match Steer::new(alloc, services, picker) {
        Ok(service) => script.play(report, service),
        Err(AllocError) => script.over(report, "out of memory"),
    }
}
