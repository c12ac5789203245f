//! Words to draw by.

use std::alloc::AllocError;
use tests_support::log::Name;
use tests_support::script::{Script as Plan, told_clone};
use tower_base::util::rng::Rng;

/// The words of a list, and then 0 for ever. It notes each. Its clones are noted as `w`, and follow the plan's.
#[derive(Drop)]
pub struct Words<'a> {
    plan: &'a Plan<'a>,
    name: Name,
    list: &'a [u64],
    at: usize,
}

impl<'a> Words<'a> {
    pub fn new(plan: &'a Plan<'a>, list: &'a [u64]) -> Words<'a> {
        Words {
            plan,
            name: Name::new('w'),
            list,
            at: 0,
        }
    }
}

impl<'a> Rng for Words<'a> {
    fn next_u64(&mut self) -> u64 {
        let word = self.list.get(self.at).copied().unwrap_or(0);
        self.at = self.at.saturating_add(1);
        self.plan.log.note(format_args!("word {word}"));
        word
    }
}

impl<'a> Clone for Words<'a> {
    fn clone(&self) -> Result<Words<'a>, AllocError> {
        let name = told_clone(self.plan, self.name)?;
        Ok(Words {
            plan: self.plan,
            name,
            list: self.list,
            at: self.at,
        })
    }
}
