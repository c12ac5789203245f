//! A generator whose words are noted.
ghost use Rattle.std.specs.Prelude.{◌≡◌};

use std::alloc::AllocError;
use tests_support::log::Log;
use tower_base::util::rng::Rng;

/// Words that go up by one. Its clones go on from the same word, or are refused.
#[derive(Drop)]
pub struct Rising<'a> {
    pub word: u64,
    pub log: &'a Log,
    pub refuses: bool,
}

impl<'a> Rising<'a> {
    pub fn new(log: &'a Log, word: u64) -> Rising<'a> {
        Rising {
            word,
            log,
            refuses: false,
        }
    }
}

impl<'a> Rng for Rising<'a> {
    ghost drew = { λ old word new. word ≡ old.word };

    fn next_u64(&mut self) -> u64 {
        self.log.note("word drawn");
        let word = self.word;
        self.word = word.wrapping_add(1);
        word
    }
}

impl<'a> Clone for Rising<'a> {
    fn clone(&self) -> Result<Rising<'a>, AllocError> {
        if self.refuses {
            return Err(AllocError);
        }
        Ok(Rising::new(self.log, self.word))
    }
}
