//! `balance WORD ..`: over a discovery, drawing by these words. `balance_never WORD ..`: the same, and no load compares with another.
//!
//! `insert KEY LETTER LOAD`, `remove KEY`, `fail N` and `close` say what the discovery finds, `a readiness ..` and `a replies ..` what the
//! endpoints `a` answer; `len` answers how many endpoints there are.

use crate::around::{Around, words_of};
use crate::findings::{Changes, Findings};
use crate::fleet::{Fleet, Weight};
use crate::words::Words;
use scripted::party::Reader;
use scripted::report::Report;
use scripted::script::{Numbers, Script};
use std::alloc::{AllocError, Global};
use tower_pool::balance::p2c::Balance;

type Balanced<'a, M> = Balance<Changes<'a, M>, Words<'a>, u8>;

// Reads how many endpoints there are.
#[derive(Drop)]
struct Length {
    alloc: Global,
}

impl<'a, M: Weight> Reader<Balanced<'a, M>> for Length {
    fn read(&self, service: &Balanced<'a, M>, words: &str) -> Result<Option<String>, AllocError> {
        if words != "len" {
            return Ok(None);
        }
        let len = service.len();
        let empty = if service.is_empty() { ", empty" } else { "" };
        Ok(Some(format!(in self.alloc; "{len}{empty}")?))
    }
}

pub fn play<M: Weight>(script: &Script<'_>, report: &mut Report<'_>) -> Result<(), AllocError> {
    let alloc = script.alloc();
    let words = words_of(script)?;
    let fleet = Fleet::new(script.stage().log);
    let findings = Findings::new(alloc);
    let mut around = Around {
        alloc,
        fleet: &fleet,
        findings: &findings,
    };
    let words = Words::new(&script.stage().others, words.as_slice());
    let balance: Balanced<'_, M> = Balance::from_rng(alloc, Changes::new(&fleet, &findings), words);
    script.play_read_with(report, balance, &Numbers, &Length { alloc }, &mut around)
}
