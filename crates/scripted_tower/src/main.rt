//! Scripts of the stacks of `tower::ServiceBuilder`, in data/.
#![tactic(auto)]

mod buffers;
mod layers;
mod policies;

use scripted::player::Services;
use scripted::program::run;
use scripted::report::Report;
use scripted::script::Script;
use std::alloc::AllocError;
use std::io;
use std::sync::Wait;

// The services of this program.
#[derive(Drop)]
struct Stacks<R> {
    rt: R,
}

impl<R: Wait + Copy> Services for Stacks<R> {
    fn play(&self, script: &Script<'_>, report: &mut Report<'_>) -> Result<(), AllocError> {
        if !script.knows(&[]) {
            return script.unread(report);
        }
        match script.name() {
            "no_layers" => layers::none(script, report),
            "map_request_twice" => layers::requests(script, report),
            "option_layer_some" => layers::option(script, report),
            "option_layer_none" => layers::no_option(script, report),
            "timeout_load_shed_concurrency_limit" => layers::shed_in_time(self.rt, script, report),
            "buffer_whole_stack" => buffers::whole_stack(self.rt, script, report),
            "buffer_beside_a_stream" => buffers::beside_a_stream(self.rt, script, report),
            _ => script.unread(report),
        }
    }
}

fn main(rt: HostRuntime) -> io::Result<()> {
    run(&rt, &Stacks { rt })
}
