//! Permutations that run side by side, so many together in each of several threads.

ghost use Rattle.std.specs.Prelude.{◌≡◌, ◌<◌, All, IfOk};
ghost use Rattle.spec_files.specs.Drafts.{AreDrafts, HasRoomFor};
ghost use Rattle.spec_files.specs.Inner.Coming.{all_entries, coming_entries, IsComing, RunsAny};

use crate::draft::Draft;
use core::thread::Stack;
use session_seats::{THREAD_STACK, make_room};
use spec_parser::Entry;
use std::alloc::{AllocError, Global};
use std::snapshot::Snapshot;
use std::sync::Wait;
use std::thread;
use std::thread::{Promise, PromisedHandle, Scope, Threads};

/// What the permutations that run side by side are lent.
pub trait Lent {
    ghost use Rattle.spec_files.specs.declared.draft.Draft.{Draft};

    /// Whether a draft may be one of its permutations'.
    ghost gives: { Self → Draft → Type 0 };
}

/// That the drafts are those of the permutations that were taken, in the same order.
#[derive(Drop)]
pub struct DraftsOf<L> {
    pub lent: Snapshot<L>,
    pub taken: Snapshot<Vec<Vec<Entry>>>,
}

impl<L: Lent> Promise<Vec<Draft>> for DraftsOf<L> {
    ghost use Rattle.spec_files.specs.Drafts.{AreDrafts};

    ghost kept_by = { λ promise drafts. AreDrafts (L.gives promise.lent.value) promise.taken.value.items drafts };
}

/// The drafts of permutations that have run, or the thread that runs them.
#[derive(Drop)]
pub enum Coming<L: Lent> {
    There(Vec<Draft>),
    Running(PromisedHandle<Vec<Draft>, DraftsOf<L>>),
}

impl<L: Lent> Coming<L> {
    /// The drafts, once they are there.
    fn drafts<R: Threads>(self, rt: &R) -> Vec<Draft>
        ensures { (lent : L) → IsComing L.gives lent self → AreDrafts (L.gives lent) (coming_entries self) result }
    {
        match self {
            Coming::There(drafts) => drafts,
            Coming::Running(thread) => thread.join(rt),
        }
    }
}

/// Has permutations run in a thread; where none can be started, in the calling one, so that no refused thread ends a run. It does what is the control session's, so its stack is as a session's thread has it.
fn begin<'s, 'e: 's, L: Lent + 's, F: Fn(Vec<Vec<Entry>>, Vec<Draft>) -> Vec<Draft> + Sync + 's>(
    scope: &Scope<'s, &'e ()>,
    alloc: Global,
    lent: &'s L,
    run: &'s F,
    taken: Vec<Vec<Entry>>,
    room: Vec<Draft>,
) -> Coming<L>
    requires runs { RunsAny (F.pre run.now) (F.post run.now) (L.gives lent.now) }
    requires room { HasRoomFor room taken.items }
    ensures { IsComing L.gives lent.now result × (coming_entries result ≡ taken.items) }
{
    let promise = DraftsOf {
        lent: Snapshot::of(lent),
        taken: Snapshot::of(&taken),
    };
    let call = move || -> Vec<Draft>
        requires { F.pre run.now taken room }
        ensures { F.post run.entry.now taken room result }
    {
        make_room(alloc, taken.len());
        run(taken, room)
    };
    let stack = Stack::new().stack_size(THREAD_STACK);
    match stack.spawn_scoped_with(scope, promise, call) {
        Ok(thread) => Coming::Running(thread),
        Err(refused) => Coming::There((refused.value)()),
    }
}

/// Has these permutations run, so many together in each thread, the last ones in the calling thread.
fn begin_each<
    's,
    'e: 's,
    L: Lent + 's,
    F: Fn(Vec<Vec<Entry>>, Vec<Draft>) -> Vec<Draft> + Sync + 's,
>(
    scope: &Scope<'s, &'e ()>,
    alloc: Global,
    lent: &'s L,
    run: &'s F,
    mut taken: Vec<Vec<Entry>>,
    together: usize,
) -> Result<Vec<Coming<L>>, AllocError>
    requires some { 0 < together }
    requires runs { RunsAny (F.pre run.now) (F.post run.now) (L.gives lent.now) }
    ensures drafts { IfOk result (λ coming. All (IsComing L.gives lent.now) coming.items) }
    ensures entries { IfOk result (λ coming. all_entries coming.items ≡ taken.items) }
{
    let mut coming = Vec::new(alloc);
    while taken.len() > together {
        let behind = taken.split_off(together)?;
        let room = Vec::with_capacity(alloc, taken.len())?;
        coming.push(begin(scope, alloc, lent, run, taken, room))?;
        taken = behind;
    }
    let room = Vec::with_capacity(alloc, taken.len())?;
    coming.push(Coming::There(run(taken, room)))?;
    Ok(coming)
}

/// The drafts of all these, in the same order, once they are there.
fn drafts_of_each<L: Lent, R: Threads>(
    rt: &R,
    alloc: Global,
    all: Vec<Coming<L>>,
) -> Result<Vec<Draft>, AllocError>
    ensures { IfOk result (λ drafts. (lent : L) → All (IsComing L.gives lent) all.items → AreDrafts (L.gives lent) (all_entries all.items) drafts) }
{
    let mut drafts = Vec::new(alloc);
    for coming in all {
        let mut more = coming.drafts(rt);
        drafts.append(&mut more)?;
    }
    Ok(drafts)
}

/// Has these permutations run, so many together in each thread, and answers their drafts in the same order.
pub fn side_by_side<
    L: Lent,
    F: Fn(Vec<Vec<Entry>>, Vec<Draft>) -> Vec<Draft> + Sync,
    R: Threads + Wait,
>(
    rt: &R,
    alloc: Global,
    lent: &L,
    run: &F,
    taken: Vec<Vec<Entry>>,
    together: usize,
) -> Result<Vec<Draft>, AllocError>
    requires some { 0 < together }
    requires runs { RunsAny (F.pre run.now) (F.post run.now) (L.gives lent.now) }
    ensures drafts { IfOk result (AreDrafts (L.gives lent.now) taken.items) }
{
    thread::scope(
        thread::scope_env(),
        rt,
        move |scope| -> Result<Vec<Draft>, AllocError>
            requires { (0 < together) × RunsAny (F.pre run.now) (F.post run.now) (L.gives lent.now) }
            ensures { IfOk result (AreDrafts (L.gives lent.entry.now) taken.items) }
        {
            let all = begin_each(scope, alloc, lent, run, taken, together)?;
            drafts_of_each(rt, alloc, all)
        },
    )
}
