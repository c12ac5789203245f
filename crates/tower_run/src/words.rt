//! The words after the program's name.
ghost use Rattle.std.specs.Prelude.{MatchOption};
ghost use Rattle.tower_run.specs.Words.{AskFor};

use crate::stacks::Stack;
use crate::storm;

/// What the words ask for.
#[derive(Clone, Copy)]
pub enum Task {
    /// A script is played against this stack.
    Script(Stack),
    /// Threads share a semaphore.
    Storm(storm::Storm),
}

impl Task {
    /// Returns what the words ask for; `None` if they are wrong.
    pub fn of(words: &[String]) -> Option<Task>
        ensures { MatchOption result ((task : Task) → ¬ AskFor words.now task)
            (λ task. AskFor words.now task) }
    {
        match words {
            [name] => Some(Task::Script(Stack::named(name.as_str())?)),
            [name, threads, rounds, permits] if name.as_str() == "storm" => {
                let storm = storm::Storm::parse(
                    threads.as_str(),
                    rounds.as_str(),
                    permits.as_str(),
                )?;
                Some(Task::Storm(storm))
            }
            _ => None,
        }
    }
}
