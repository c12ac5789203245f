//! Clocks that wake a waiting task once its deadline has come, and not before: `Timers` for any executor,
//! with a thread of its own, and `ClockLoop` for tasks of one thread.
#![tactic(auto)]

pub mod clock_loop;
mod ticks;
pub mod timers;

pub use clock_loop::{ClockLoop, LoopClock};
pub use timers::{TimerClock, Timers};
