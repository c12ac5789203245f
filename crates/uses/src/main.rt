//! The shortest use of each middleware that the examples don't show. Each function is proved, and prints
//! what came of its calls.
#![tactic(auto)]

mod attempt;
mod balance;
mod call_all;
mod counted;
mod filter;
mod hedge;
mod latch;
mod load;
mod load_shed;
mod make;
mod own_clock;
mod permits;
mod queued;
mod ready_cache;
mod reconnect;
mod refusal;
mod select;
mod server;
mod spawn_ready;
mod stands;
mod steer;
mod waits;
mod within_rate;

use std::fmt::Display;
use std::io;

/// Prints the outcome of a call.
fn tell<R, T, E>(rt: R, name: &str, answer: Result<T, E>) -> io::Result<()>
where
    R: Print + Copy,
    T: Display + Drop,
    E: Display + Drop,
{
    match answer {
        Ok(response) => println!(rt; "{name}: {response}"),
        Err(error) => println!(rt; "{name}: error, {error}"),
    }
}

fn main(rt: HostRuntime) -> io::Result<()> {
    load_shed::refuse(rt)?;
    filter::reject(rt)?;
    filter::reject_later(rt)?;
    reconnect::connect_again(rt)?;
    reconnect::connect_behind_a_buffer(rt)?;
    queued::shed_load(rt)?;
    steer::pick(rt)?;
    steer::pick_under_a_limit(rt)?;
    steer::miss(rt)?;
    call_all::in_order(rt)?;
    call_all::as_they_come(rt)?;
    make::call_a_clone(rt)?;
    make::await_a_service(rt)?;
    load::of_pending_requests(rt)?;
    ready_cache::call_by_key(rt)?;
    balance::make_a_pool(rt)?;
    queued::call_beside_the_worker(rt)?;
    spawn_ready::warm_up(rt)?;
    select::ask_a_backup(rt)?;
    hedge::ask_again(rt)?;
    latch::sell_two_seats(rt)?;
    permits::hold_three(rt)?;
    permits::hold_one_each(rt)?;
    permits::hold_below_a_stack(rt)?;
    within_rate::hold_back(rt)?;
    within_rate::wait_for_each(rt)?;
    waits::within_rate(rt)?;
    stands::wait_for_the_rate(rt)?;
    own_clock::wait_for_three_moments(rt)?;
    refusal::tell_apart(rt)?;
    refusal::list(rt)
}
