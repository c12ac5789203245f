//! Refused memory: keys of a ready cache, which are given back.

use futures::future::{Ready, ready};
use futures::task::{Context, Poll};
use std::alloc::{AllocError, Global};
use std::test::Fail;
use tower_base::service::Service;
use tower_pool::ready_cache::ReadyCache;

// Answers with the request. Its first poll is pending where it is busy.
#[derive(Drop)]
struct Echo {
    busy: bool,
}

impl Service<u8> for Echo {
    type Response = u8;

    type Error = u8;

    type Future = Ready<Result<u8, u8>>;

    ghost readies = { λ _ _ _. tt };

    fn poll_ready(&mut self, cx: &mut Context<'_>) -> Poll<Result<(), u8>> {
        if self.busy {
            self.busy = false;
            return cx.yield_now();
        }
        Poll::Ready(Ok(()))
    }

    fn call(&mut self, request: u8) -> Ready<Result<u8, u8>> {
        ready(Ok(request))
    }
}

// A key whose clone takes memory.
#[derive(Drop, PartialEq, Eq, Hash)]
struct Tag {
    alloc: Global,
    number: u8,
}

impl Clone for Tag {
    ghost use Rattle.std.specs.Prelude.{◌≡◌};

    ghost is_clone = { λ old new. new ≡ old };

    fn clone(&self) -> Result<Tag, AllocError> {
        let copy = Box::new(self.alloc, self.number)?;
        Ok(Tag {
            alloc: self.alloc,
            number: *copy,
        })
    }
}

// A push clones its key, and makes room for its entry and for its key's place. Refused at any of them it gives back what it
// was given, and the cache is as it was.
fn pushed(
    cache: &mut ReadyCache<Tag, Echo, u8>,
    key: Tag,
    busy: bool,
    again: bool,
) -> Result<(), Fail> {
    let before = cache.len();
    if let Err((key, service)) = cache.push(key, Echo { busy }) {
        let is_same = cache.len() == before
            && !cache.pending_contains(&key)
            && service.busy == busy;
        if !again || !is_same || cache.push(key, service).is_err() {
            return Err("not given back".into());
        }
    }
    Ok(())
}

fn two_keys(alloc: Global, again: bool) -> Result<(), Fail> {
    let mut cache = ReadyCache::new(alloc);
    pushed(&mut cache, Tag { alloc, number: 4 }, true, again)?;
    pushed(&mut cache, Tag { alloc, number: 5 }, false, again)?;
    if cache.pending_len() != 2 {
        return Err("not pushed".into());
    }
    Ok(())
}

#[test]
fn refused_keys_are_given_back(rt: HostRuntime) -> Result<(), Fail> {
    two_keys(rt.alloc(), true)
}

#[test]
fn ample_keys(rt: HostRuntime) -> Result<(), Fail> {
    two_keys(rt.alloc(), false)
}
