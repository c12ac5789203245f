//! A lock around a core.
ghost use Rattle.std.specs.Prelude.{◌≡◌, ◌≤◌, false, [], IfOk, IsTrue, None};
ghost use Rattle.std.specs.Arc.{arc_value};
ghost use Rattle.tower_latch.specs.Latch.{Reached, Came};
ghost use Rattle.tower_latch.specs.Guarded.{GuardedView, Settled, IsAlone};
ghost use Rattle.tower_latch.specs.LatchMachine.{StepsAndWakes, Waits};
ghost use Rattle.tower_latch.specs.CoreTable.{initial, Holds, HoldsBadge, places};
ghost use Rattle.tower_latch.specs.LockSteps.{Awaits, CoreSteps, MayPutBack, MayStep, PutBack, StepMade};

mod crowd;
mod table;
mod token;
mod waiters;

use crate::guarded::table::{CoreTable, Frees, Gathers, Known, Seat, Takes};
use crate::{Core, Latch, Wakes};
use futures::task::{Context, Source};
use std::alloc::{AllocError, Global};
use std::hint;
use std::marker::{Brand, Model};
use std::sync::atomic::{AtomicU64, Ordering};
use std::sync::{Arc, Wait};
pub use token::Token;
use waiters::{Waiters, Woken};

/// A `Latch` that is a lock around a core.
///
/// Wakers are kept beside the core by key, one for each task that waits there through a share. A step
/// wakes those whom it names, once the lock is free. If there is no memory to keep a waker, its task is
/// woken at once.
#[derive(Drop)]
pub struct Guarded<C: Core, R> {
    rt: R,
    // 0 only at the first latch.
    share: u64,
    shared: Arc<Shared<C>, Global>,
}

impl<C: Core, R> Model for Guarded<C, R> {
    ghost Value = { GuardedView C.Terms };

    // The view leaves out `rt`: it never changes, and only serves to park.
    ghost view = { λ g. record {
      share = g.share;
      source = (arc_value g.shared).source.id;
      table = (arc_value g.shared).table.shared.table_id;
      terms = (arc_value g.shared).table.shared.key;
    } };
}

#[derive(Drop)]
struct Shared<C: Core> {
    source: Source,
    shares: AtomicU64,
    table: CoreTable<C>,
    ghost one: { (table.shared.table_id.words ≡ 1) × (table.shared.table_id.slots ≡ 1) },
}

// The contents of the lock: the core, and the wakers of the tasks that wait.
#[derive(Drop)]
pub struct Kept<C: Core> {
    core: C,
    waiters: Waiters,
    // A run from an opening core leads to this core.
    ghost reached: { ∥ Reached C.opens C.steps core ∥₁ },
    // Each key at which somebody waits stalls.
    ghost settled: { ∥ Settled C.stalls core waiters ∥₁ },
    ghost within: { C.out core ≤ C.size (C.terms core) },
}

impl<C: Core, R: Wait + Copy> Guarded<C, R> {
    /// Creates a lock around the core. Returns an error if allocation fails; the core is dropped then.
    pub fn new(rt: R, alloc: Global, core: C) -> Result<Guarded<C, R>, AllocError>
        requires { C.opens core }
        ensures first { IfOk result (λ latch. ⟦<Guarded<C, R> as Latch<C>>⟧.is_first latch) }
        ensures terms { IfOk result
            (λ latch. ⟦<Guarded<C, R> as Latch<C>>⟧.terms latch ≡ C.terms core) }
    {
        let terms = core.terms();
        let mut slots = Vec::new(alloc);
        slots.push(Kept::new(alloc, core))?;
        let Ok((table, _seat)) = CoreTable::<C>::new(alloc, &[0], slots, &terms) else {
            return Err(AllocError);
        };
        let shared = Shared {
            source: Source::new(),
            shares: AtomicU64::new(1),
            table,
        };
        Ok(Guarded {
            rt,
            share: 0,
            shared: Arc::new(alloc, shared)?,
        })
    }

    // Locks, and takes the core.
    #[inline(always)]
    fn lock<K: Known<C::Terms>>(&self) -> Seat<C>
        requires { K.are self.now.terms }
        ensures has { Holds (λ k. K.are (C.terms k.core)) (λ k. C.out k.core) initial result.me }
        ensures its { result.table_id ≡ self.now.table }
    {
        let (found, mut seat) = self.shared.table.shared.swap_new_seat::<Takes<K>>(0, 1);
        if found != 0 {
            self.shared.lock_late::<R, K>(self.rt, found, &mut seat);
        }
        seat
    }

    // Locks, and takes the core for the token's holder.
    #[inline(always)]
    fn lock_with<K: Known<C::Terms>>(&self, token: Token) -> Seat<C>
        requires known { K.are self.now.terms }
        requires its { token.badge.table_id ≡ self.now.table }
        ensures has { HoldsBadge (λ k. K.are (C.terms k.core)) (λ k. C.out k.core)
            token.badge.views result.me }
        ensures its { result.table_id ≡ self.now.table }
    {
        let mut seat = token.into_seat::<C>();
        let found = self.shared.table.shared.swap::<Takes<K>>(&mut seat, 0, 1);
        if found != 0 {
            self.shared.lock_late::<R, K>(self.rt, found, &mut seat);
        }
        seat
    }

    // Makes one step, with wakers beside the core. They are woken once the lock is free. It stands apart
    // from the steps of `Latch`, so that those have no place for the woken if no waker is kept.
    #[inline(always)]
    fn step_and_wake(&self, mut seat: Seat<C>, step: C::Step) -> (C::Reply, Token)
        requires { MayStep C.Core (λ k. k.core) self.now.table self.now.terms seat step }
        ensures { StepMade C.Core (λ k. k.core) self.now.table self.now.terms seat step result.0
            result.1 }
    {
        let kept = seat.slot_mut(&self.shared.table.shared, 0);
        let mut woken = Woken::nobody();
        let reply = kept.step(step, &mut woken);
        let token = self.free(seat);
        woken.wake(&token);
        (reply, token)
    }

    // Makes one step of a task that may wait, with wakers beside the core.
    #[inline(always)]
    fn wait_or_wake(
        &self,
        mut seat: Seat<C>,
        step: C::Step,
        cx: &mut Context<'_>,
    ) -> (C::Reply, Token)
        requires { MayStep C.Core (λ k. k.core) self.now.table self.now.terms seat step }
        ensures stepped { StepMade C.Core (λ k. k.core) self.now.table self.now.terms seat step
            result.0 result.1 }
        ensures awaits { Awaits C.Core self.now.source result.0 cx.old cx.new }
    {
        let kept = seat.slot_mut(&self.shared.table.shared, 0);
        let mut woken = Woken::nobody();
        let reply = kept.wait(step, self.share, &self.shared.source, cx, &mut woken);
        let token = self.free(seat);
        woken.wake(&token);
        (reply, token)
    }

    // Puts the core back.
    #[inline(always)]
    fn free(&self, seat: Seat<C>) -> Token
        requires { MayPutBack C.Core (λ k. k.core) self.now.table self.now.terms seat }
        ensures { PutBack C.Core (λ k. k.core) self.now.table self.now.terms seat result }
    {
        self.shared.free(seat)
    }
}

// How often a thread looks whether the core is there before it parks.
const LOOKS: u32 = 1_000;

// What may wait or wake takes the shared part alone: a reference to the `Guarded` itself would force
// whatever holds it into memory.
impl<C: Core> Shared<C> {
    // Waits for the core, which another holder has. Whoever found a mark of a thread that parks, which its
    // own step overwrote, leaves a mark at once.
    #[cold]
    #[inline(never)]
    fn lock_late<R: Wait + Copy, K: Known<C::Terms>>(&self, rt: R, found: u64, seat: &mut Seat<C>)
        requires known { K.are self.now.table.shared.key }
        requires free { seat.old.me ≡ (seat.old.me.0, []) }
        requires without { seat.old.me.0.has ≡ false }
        requires its { seat.old.table_id ≡ self.now.table.shared.table_id }
        ensures has { Holds (λ k. K.are (C.terms k.core)) (λ k. C.out k.core)
            seat.old.me.0 seat.new.me }
        ensures its { seat.new.table_id ≡ seat.old.table_id }
    {
        if found == 1 && self.looks_home() && self.table.shared.swap::<Takes<K>>(seat, 0, 1) == 0 {
            return;
        }
        for _ in rt.forever() {
            if self.table.shared.swap::<Takes<K>>(seat, 0, 2) == 0 {
                return;
            }
            self.table.shared.park(&rt, 0, 2);
        }
        unreachable!()
    }

    // Looks at most `LOOKS` times whether the core is there, and returns whether it was.
    fn looks_home(&self) -> bool {
        for _ in 0..LOOKS {
            if self.table.shared.peek(0) == 0 {
                return true;
            }
            hint::spin_loop();
        }
        false
    }

    // Makes the step of a token's holder, with wakers beside the core. It is a call, so that whoever drops
    // a permit saves no registers for it.
    #[cold]
    #[inline(never)]
    fn give_and_wake(&self, mut seat: Seat<C>, step: C::Step) -> (C::Reply, Token)
        requires { MayStep C.Core (λ k. k.core) self.now.table.shared.table_id
            self.now.table.shared.key seat step }
        ensures { StepMade C.Core (λ k. k.core) self.now.table.shared.table_id
            self.now.table.shared.key seat step result.0 result.1 }
    {
        let mut woken = Woken::nobody();
        let reply = seat.slot_mut(&self.table.shared, 0).step(step, &mut woken);
        let token = self.free(seat);
        woken.wake(&token);
        (reply, token)
    }

    // Puts the core back, and wakes a thread that waits for it, if there is one.
    #[inline(always)]
    fn free(&self, mut seat: Seat<C>) -> Token
        requires { MayPutBack C.Core (λ k. k.core) self.now.table.shared.table_id
            self.now.table.shared.key seat }
        ensures { PutBack C.Core (λ k. k.core) self.now.table.shared.table_id
            self.now.table.shared.key seat result }
    {
        if self.table.shared.swap::<Frees>(&mut seat, 0, 0) == 2 {
            self.table.shared.wake_one(0);
        }
        Token {
            badge: seat.into_badge(),
        }
    }
}

impl Token {
    /// Ends a token of no places.
    #[inline(always)]
    pub fn end(self)
        requires { places self ≡ 0 }
    {
        let Token { badge: _ } = self;
    }
}

impl<C: Core> Kept<C> {
    // Keeps the core, with no waker beside it.
    fn new(alloc: Global, core: C) -> Kept<C>
        requires { C.opens core }
        ensures { result.core ≡ core }
    {
        Kept {
            core,
            waiters: Waiters::new(alloc),
        }
    }

    // Returns whether no waker is kept.
    #[inline(always)]
    fn is_alone(&self) -> bool
        ensures { IsTrue result → IsAlone self.now.waiters }
    {
        self.waiters.is_empty()
    }

    // Makes one step, with no waker beside the core.
    #[inline(always)]
    fn step_alone(&mut self, step: C::Step) -> C::Reply
        requires admitted { C.admits step }
        requires alone { IsAlone self.old.waiters }
        ensures made { CoreSteps C.Core self.old.core step result self.new.core }
        ensures machine { StepsAndWakes C.Core self.old.core self.old.waiters step result None
            self.new.core self.new.waiters }
    {
        let (reply, _) = self.core.step(step);
        reply
    }

    // Makes one step, with no waker beside the core. If the reply waits, keeps the waker of the task at
    // this share.
    #[inline(always)]
    fn wait_alone(
        &mut self,
        step: C::Step,
        share: u64,
        source: &Source,
        cx: &mut Context<'_>,
    ) -> C::Reply
        requires admitted { C.admits step }
        requires alone { IsAlone self.old.waiters }
        ensures made { CoreSteps C.Core self.old.core step result self.new.core }
        ensures awaits { Awaits C.Core source.now.id result cx.old cx.new }
        ensures machine { Waits C.Core share cx.old self.old.core self.old.waiters step result None
            cx.new self.new.core self.new.waiters }
    {
        let (reply, wakes) = self.core.step(step);
        let Wakes::Wait(key) = wakes else {
            return reply;
        };
        self.waiters.keep(key, share, source, cx);
        reply
    }

    // Makes one step, and takes the wakers of those whom it names.
    #[inline(always)]
    fn step(&mut self, step: C::Step, woken: &mut Woken) -> C::Reply
        requires admitted { C.admits step }
        requires nobody { woken.old ≡ None }
        ensures made { CoreSteps C.Core self.old.core step result self.new.core }
        ensures machine { StepsAndWakes C.Core self.old.core self.old.waiters step result woken.new
            self.new.core self.new.waiters }
    {
        let (reply, named) = self.core.step(step);
        self.waiters.take(named, &self.core, woken);
        reply
    }

    // Makes one step, and takes the wakers of those whom it names. If the reply waits, keeps the waker of
    // the task at this share.
    #[inline(always)]
    fn wait(
        &mut self,
        step: C::Step,
        share: u64,
        source: &Source,
        cx: &mut Context<'_>,
        woken: &mut Woken,
    ) -> C::Reply
        requires admitted { C.admits step }
        requires nobody { woken.old ≡ None }
        ensures made { CoreSteps C.Core self.old.core step result self.new.core }
        ensures awaits { Awaits C.Core source.now.id result cx.old cx.new }
        ensures machine { Waits C.Core share cx.old self.old.core self.old.waiters step result
            woken.new cx.new self.new.core self.new.waiters }
    {
        let (reply, wakes) = self.core.step(step);
        self.waiters.take(wakes, &self.core, woken);
        let Wakes::Wait(key) = wakes else {
            return reply;
        };
        self.waiters.keep(key, share, source, cx);
        reply
    }
}

impl<C: Core, R: Wait + Copy> Latch<C> for Guarded<C, R> {
    // In some run of a core with these terms from an opening one, the step had this reply.
    ghost gave = { λ latch step reply. Came C.opens C.steps C.terms latch.terms step reply };

    ghost is_first = { λ latch. latch.share ≡ 0 };

    // Both latches share one core, since they have the same table.
    ghost shares = { λ latch made. IfOk made (λ other. (other.table ≡ latch.table)
        × (other.terms ≡ latch.terms) × (other.source ≡ latch.source)) };

    ghost terms = { λ latch. latch.terms };

    ghost source = { λ latch s. s ≡ latch.source };

    ghost its = { λ latch token. token.badge.table_id ≡ latch.table };

    ghost honest = { λ _ _ _ given. given };

    // Usually no waker is kept.
    #[inline(always)]
    fn step(&self, step: C::Step) -> C::Reply {
        let mut seat = self.lock::<Brand>();
        let kept = seat.slot_mut(&self.shared.table.shared, 0);
        if kept.is_alone() {
            let reply = kept.step_alone(step);
            self.free(seat).end();
            return reply;
        }
        let (reply, token) = self.step_and_wake(seat, step);
        token.end();
        reply
    }

    #[inline(always)]
    fn wait(&self, step: C::Step, cx: &mut Context<'_>) -> (C::Reply, Token) {
        let mut seat = self.lock::<Brand>();
        let kept = seat.slot_mut(&self.shared.table.shared, 0);
        if kept.is_alone() {
            let reply = kept.wait_alone(step, self.share, &self.shared.source, cx);
            return (reply, self.free(seat));
        }
        self.wait_or_wake(seat, step, cx)
    }

    #[inline(always)]
    fn give(&self, step: C::Step, token: Token) -> (C::Reply, Token) {
        let mut seat = self.lock_with::<Brand>(token);
        let kept = seat.slot_mut(&self.shared.table.shared, 0);
        if kept.is_alone() {
            let reply = kept.step_alone(step);
            return (reply, self.free(seat));
        }
        self.shared.give_and_wake(seat, step)
    }

    fn empty(&self) -> Token {
        self.free(self.lock::<Brand>())
    }

    fn merge(&self, token: Token, other: Token) -> Token {
        let mut seat = self.lock_with::<Brand>(token);
        self.shared
            .table
            .shared
            .join_seat::<Gathers>(&mut seat, other.into_seat());
        self.free(seat)
    }

    fn share(&self) -> Result<Guarded<C, R>, AllocError> {
        Ok(Guarded {
            rt: self.rt,
            share: self.shared.shares.fetch_add(1, Ordering::Relaxed),
            shared: Arc::try_clone(&self.shared)?,
        })
    }
}
