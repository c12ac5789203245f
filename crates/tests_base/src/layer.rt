//! Layers: which is applied first, and refusals.

use std::alloc::AllocError;
use std::test::Fail;
use tests_support::checks::Checks;
use tests_support::log::Log;
use tests_support::plain::Plain;
use tower_base::layer::{Identity, Layer, Stack, layer_fn};

#[test]
fn outer_layer_is_applied_to_what_the_inner_one_makes(rt: HostRuntime) -> Result<(), Fail> {
    let checks = Checks::new(rt.alloc());
    let log = Log::new(rt.alloc())?;
    let ten = |x: u32| -> Result<u32, AllocError> {
        log.note(format_args!("ten {x}"));
        Ok(x.wrapping_mul(10))
    };
    let one = |x: u32| -> Result<u32, AllocError> {
        log.note(format_args!("one {x}"));
        Ok(x.wrapping_add(1))
    };
    let ten_inside = Stack::new(layer_fn(ten), layer_fn(one));
    checks.same(&ten_inside.layer(4)?, &41);
    let one_inside = Stack::new(layer_fn(one), layer_fn(ten));
    checks.same(&one_inside.layer(4)?, &50);
    checks.same(&layer_fn(ten).clone()?.layer(4)?, &40);
    checks.told(&log, "ten 4;one 40;one 4;ten 5;ten 4;");
    checks.verdict()
}

#[test]
fn identity_leaves_the_service(rt: HostRuntime) -> Result<(), Fail> {
    let stack = Stack::new(Identity::new(), Identity::default());
    assert_eq!(rt; stack.clone()?.layer(4u32)?, 4);
    Ok(())
}

#[test]
fn refusal_of_either_layer_is_handed_on(rt: HostRuntime) -> Result<(), Fail> {
    let checks = Checks::new(rt.alloc());
    let log = Log::new(rt.alloc())?;
    let refusing = |_x: u32| -> Result<u32, AllocError> {
        log.note("refused");
        Err(AllocError)
    };
    let passing = |x: u32| -> Result<u32, AllocError> {
        log.note("passed");
        Ok(x)
    };
    let inner = Stack::new(layer_fn(refusing), layer_fn(passing));
    checks.holds(inner.layer(4).is_err());
    let outer = Stack::new(layer_fn(passing), layer_fn(refusing));
    checks.holds(outer.layer(4).is_err());
    checks.told(&log, "refused;passed;refused;");
    checks.verdict()
}

#[test]
fn clones_of_layers_are_made_of_each_part_once(rt: HostRuntime) -> Result<(), Fail> {
    let checks = Checks::new(rt.alloc());
    let log = Log::new(rt.alloc())?;
    let stack = Stack::new(Plain::new(&log, 'i'), Plain::new(&log, 'o')).clone()?;
    checks.told(&log, "i cloned i1;o cloned o2;i dropped;o dropped;");
    drop(stack);
    checks.told(&log, "i1 dropped;o2 dropped;");
    checks.verdict()
}

#[test]
fn refusing_parts_are_handed_on(rt: HostRuntime) -> Result<(), Fail> {
    let checks = Checks::new(rt.alloc());
    let log = Log::new(rt.alloc())?;
    let plain = || Plain::new(&log, 'p');
    let refusing = || Plain::refusing(&log, 'r');
    checks.holds(layer_fn(refusing()).clone().is_err());
    checks.holds(Stack::new(refusing(), plain()).clone().is_err());
    checks.holds(Stack::new(plain(), refusing()).clone().is_err());
    checks.told(
        &log,
        "r refused;r dropped;r refused;r dropped;p dropped;p cloned p1;r refused;p1 dropped;p dropped;r dropped;",
    );
    checks.verdict()
}
