//! Clocks that wake a waiting task once its deadline has come, loops and their spawned tasks, and clocks that
//! a test holds still.

pub use tower_paused::{Advance, HandClock, PausedClock, PausedError, PausedLoop};
pub use tower_spawn::{Beside, BesideError, Spawned, Spawner};
pub use tower_time::{ClockLoop, LoopClock, TimerClock, Timers, clock_loop, timers};
