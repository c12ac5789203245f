//! `ready_cache`: a cache of the services `a` to `d` under keys.
//!
//! `push 1 a` pushes `a` under the key 1, `push 1 a 130` as often; `poll` polls the pending ones; `check 1`, `find 1`, `evict 1` and `replace 1 c`
//! name a key, and `check_index 0`, `find_index 0`, `call_index 0 7` and `replace_index 0 c` an index. `push_and_call 1 b` checks the key, pushes,
//! and calls what was ready. `look` answers the ready keys in order, and the counts. `drop cache` drops all.
ghost use Rattle.std.specs.Prelude.{◌≡◌};
ghost use Rattle.tower_pool.specs.ReadyCache.{Sound};

use crate::fleet::{Fleet, letter_of};
use futures::task::{Context, Poll, Solo};
use scripted::party::Party;
use scripted::report::{Report, error_text};
use scripted::script::Script;
use std::alloc::{AllocError, Global};
use std::fmt::{Debug, Display};
use tests_support::run::end;
use tests_support::service::Scripted;
use tower_base::service::Service;
use tower_pool::ready_cache::ReadyCache;
use tower_pool::ready_cache::error::Failed;

type Cache<'a> = ReadyCache<u8, Scripted<'a>, u8>;

// What a line asks of a cache.
#[derive(Clone, Copy)]
enum Act {
    Push(u8, char, u16),
    Check(u8),
    CheckIndex(usize),
    CallIndex(usize, u8),
    PushAndCall(u8, char),
    Evict(u8),
    Find(u8),
    FindIndex(usize),
    Replace(u8, char),
    ReplaceIndex(usize, char),
    Look,
}

// A number and a letter.
fn placed(text: &str) -> Option<(u8, char)> {
    let (place, name) = text.split_once(' ')?;
    Some((place.parse().ok()?, letter_of(name)?))
}

// A key, a letter and how often.
fn pushed(text: &str) -> Option<Act> {
    let (key, rest) = text.split_once(' ')?;
    let (name, count) = rest.split_once(' ').unwrap_or((rest, "1"));
    Some(Act::Push(key.parse().ok()?, letter_of(name)?, count.parse().ok()?))
}

fn act_of(text: &str) -> Option<Act> {
    let (name, rest) = text.split_once(' ').unwrap_or((text, ""));
    match name {
        "look" if rest.is_empty() => Some(Act::Look),
        "push" => pushed(rest),
        "check" => Some(Act::Check(rest.parse().ok()?)),
        "check_index" => Some(Act::CheckIndex(rest.parse().ok()?)),
        "call_index" => {
            let (index, request) = rest.split_once(' ')?;
            Some(Act::CallIndex(index.parse().ok()?, request.parse().ok()?))
        }
        "push_and_call" => {
            let (key, letter) = placed(rest)?;
            Some(Act::PushAndCall(key, letter))
        }
        "evict" => Some(Act::Evict(rest.parse().ok()?)),
        "find" => Some(Act::Find(rest.parse().ok()?)),
        "find_index" => Some(Act::FindIndex(rest.parse().ok()?)),
        "replace" => {
            let (key, letter) = placed(rest)?;
            Some(Act::Replace(key, letter))
        }
        "replace_index" => {
            let (index, letter) = placed(rest)?;
            Some(Act::ReplaceIndex(usize::from(index), letter))
        }
        _ => None,
    }
}

// The keys of the ready endpoints, and the counts.
fn look<S: Service<u8>>(
    alloc: Global,
    cache: &ReadyCache<u8, S, u8>,
) -> Result<String, AllocError> {
    let mut text = "ready".to_string(alloc)?;
    for (key, _) in cache.iter_ready() {
        write!(text, " {key}")?;
    }
    let ready = cache.ready_len();
    let pending = cache.pending_len();
    let len = cache.len();
    write!(text, ", {ready} + {pending} = {len}")?;
    if cache.is_empty() {
        text.push_str(", empty")?;
    }
    Ok(text)
}

// Where the key is.
fn find<S: Service<u8>>(
    alloc: Global,
    cache: &ReadyCache<u8, S, u8>,
    key: u8,
) -> Result<String, AllocError> {
    let pending = if cache.pending_contains(&key) {
        ", pending"
    } else {
        ""
    };
    match cache.get_ready(&key) {
        Some((index, key, _)) => format!(in alloc; "{key} at {index}{pending}"),
        None => format!(in alloc; "not ready{pending}"),
    }
}

// The key at the index.
fn find_index<S: Service<u8>>(
    alloc: Global,
    cache: &ReadyCache<u8, S, u8>,
    index: usize,
) -> Result<String, AllocError> {
    match cache.get_ready_index(index) {
        Some((key, _)) => key.to_string(alloc),
        None => "none".to_string(alloc),
    }
}

// A poll of the pending ones.
fn poll<S: Service<u8>>(
    alloc: Global,
    solo: &Solo,
    cache: &mut ReadyCache<u8, S, u8>,
) -> Result<String, AllocError>
where
    S::Error: Debug + Display,
    requires { Sound S.sound cache.old.lists }
    ensures { Sound S.sound cache.new.lists }
{
    let mut cx = solo.begin();
    let answer = cache.poll_pending(&mut cx);
    end(cx, &answer);
    match answer {
        Poll::Ready(Ok(())) => "ready".to_string(alloc),
        Poll::Ready(Err(error)) => error_text(alloc, &error),
        Poll::Pending => "pending".to_string(alloc),
    }
}

// The answer of a check.
fn told<E: Debug + Display + Drop>(
    alloc: Global,
    answer: Result<bool, Failed<u8, E>>,
) -> Result<String, AllocError> {
    match answer {
        Ok(is_ready) => is_ready.to_string(alloc),
        Err(error) => error_text(alloc, &error),
    }
}

// A check, and a call if the endpoint is ready. The call's future is dropped.
fn call<S: Service<u8>>(
    alloc: Global,
    cx: &mut Context<'_>,
    cache: &mut ReadyCache<u8, S, u8>,
    index: usize,
    request: u8,
) -> Result<String, AllocError>
where
    S::Error: Debug + Display,
    requires { Sound S.sound cache.old.lists }
    ensures { Sound S.sound cache.new.lists }
{
    match cache.check_ready_index(cx, index) {
        Ok(true) => {
            let _ = cache.call_ready_index(index, request);
            "true".to_string(alloc)
        }
        answer => told(alloc, answer),
    }
}

// A check, a push, and then a call if the endpoint was ready.
fn push_and_call<S: Service<u8>>(
    alloc: Global,
    cx: &mut Context<'_>,
    cache: &mut ReadyCache<u8, S, u8>,
    key: u8,
    made: S,
) -> Result<String, AllocError>
where
    S::Error: Debug + Display,
    requires sound { Sound S.sound cache.old.lists }
    requires made { S.sound made }
    ensures { Sound S.sound cache.new.lists }
{
    match cache.check_ready(cx, &key) {
        Ok(true) => {
            let answer = push(cache, key, made);
            let _ = cache.call_ready(&key, key);
            if answer.is_empty() {
                "true".to_string(alloc)
            } else {
                answer.to_string(alloc)
            }
        }
        answer => told(alloc, answer),
    }
}

// A push.
fn push<S: Service<u8>>(cache: &mut ReadyCache<u8, S, u8>, key: u8, made: S) -> &'static str
    requires sound { Sound S.sound cache.old.lists }
    requires made { S.sound made }
    ensures sound { Sound S.sound cache.new.lists }
    ensures ready { cache.new.lists.ready ≡ cache.old.lists.ready }
{
    match cache.push(key, made) {
        Ok(()) => "",
        Err(_) => "out of memory",
    }
}

// A service in the place of the key's ready one, which is dropped.
fn replace<S: Service<u8>>(cache: &mut ReadyCache<u8, S, u8>, key: u8, made: S) -> &'static str {
    match cache.get_ready_mut(&key) {
        Some(service) => {
            *service = made;
            ""
        }
        None => "none",
    }
}

// The same at the index.
fn replace_index<S: Service<u8>>(
    cache: &mut ReadyCache<u8, S, u8>,
    index: usize,
    made: S,
) -> &'static str {
    match cache.get_ready_index_mut(index) {
        Some(service) => {
            *service = made;
            ""
        }
        None => "none",
    }
}

// So many pushes.
fn push_all<'a>(
    fleet: &'a Fleet<'a>,
    cache: &mut Cache<'a>,
    key: u8,
    letter: char,
    count: u16,
) -> &'static str {
    for _ in 0..count {
        let answer = push(cache, key, fleet.endpoint(letter));
        if !answer.is_empty() {
            return answer;
        }
    }
    ""
}

fn answer<'a>(
    alloc: Global,
    cx: &mut Context<'_>,
    fleet: &'a Fleet<'a>,
    cache: &mut Cache<'a>,
    act: Act,
) -> Result<String, AllocError> {
    match act {
        Act::Push(key, letter, count) => push_all(fleet, cache, key, letter, count).to_string(
            alloc,
        ),
        Act::Check(key) => told(alloc, cache.check_ready(cx, &key)),
        Act::CheckIndex(index) => told(alloc, cache.check_ready_index(cx, index)),
        Act::CallIndex(index, request) => call(alloc, cx, cache, index, request),
        Act::PushAndCall(key, letter) => push_and_call(
            alloc,
            cx,
            cache,
            key,
            fleet.endpoint(letter),
        ),
        Act::Evict(key) => cache.evict(&key).to_string(alloc),
        Act::Find(key) => find(alloc, cache, key),
        Act::FindIndex(index) => find_index(alloc, cache, index),
        Act::Replace(key, letter) => replace(cache, key, fleet.endpoint(letter)).to_string(alloc),
        Act::ReplaceIndex(index, letter) => replace_index(
            cache,
            index,
            fleet.endpoint(letter),
        ).to_string(alloc),
        Act::Look => look(alloc, cache),
    }
}

// A cache, and its services.
#[derive(Drop)]
struct Cached<'s, 'p, 'a> {
    script: &'s Script<'p>,
    fleet: &'a Fleet<'a>,
    cache: Option<Cache<'a>>,
}

impl<'s, 'p, 'a> Party for Cached<'s, 'p, 'a> {
    fn act(&mut self, words: &str) -> Result<Option<String>, AllocError> {
        let alloc = self.script.alloc();
        if words == "drop cache" {
            self.cache = None;
            return Ok(Some(String::new(alloc)));
        }
        if self.fleet.change(alloc, words)? {
            return Ok(Some(String::new(alloc)));
        }
        let Some(cache) = &mut self.cache else {
            return Ok(None);
        };
        if words == "poll" {
            return Ok(Some(poll(alloc, self.script.solo(), cache)?));
        }
        let Some(act) = act_of(words) else {
            return Ok(None);
        };
        let mut cx = self.script.solo().begin();
        let answer = answer(alloc, &mut cx, self.fleet, cache, act);
        end(cx, &Poll::Ready(()));
        Ok(Some(answer?))
    }

    fn end(&mut self) {
        self.cache = None;
    }
}

pub fn play(script: &Script<'_>, report: &mut Report<'_>) -> Result<(), AllocError> {
    let fleet = Fleet::new(script.stage().log);
    let mut cached = Cached {
        script,
        fleet: &fleet,
        cache: Some(ReadyCache::new(script.alloc())),
    };
    script.play_party(report, &mut cached)
}
