//! The permutations of a spec, run ahead of their turn, several side by side.

ghost use Rattle.std.specs.Prelude.{◌≡◌, ◌+◌, ◌*◌, ◌<◌, ◌≤◌, ◌≢◌, ◌⊎◌, [], ◌∷◌, ◌++◌, All, length, map, OnOk, IfOk, IfSome, IfNone};
ghost use Rattle.std.specs.Bool.{OnTrue, OnFalse};
ghost use Rattle.sql_blocks.specs.Blocks.{blocks_of};
ghost use Rattle.spec_parser.specs.Trees.{entry_view, spec_view};
ghost use Rattle.spec_parser.specs.Stands.{Stands};
ghost use Rattle.permutation_lists.specs.Permutations.{permutations_of};
ghost use Rattle.spec_files.specs.Drafts.{AreDrafts, HasRoomFor, IsDraft, entries_of};
ghost use Rattle.spec_files.specs.Runners.{RunsEach};
ghost use Rattle.spec_files.specs.Inner.Drafts.{lists_of, to_come};

use crate::draft::Draft;
use crate::file::SpecFile;
use crate::load::is_busy;
use crate::side_by_side::{Lent, side_by_side};
use permutation_lists::Permutations;
use spec_parser::{Entry, Spec};
use std::alloc::{AllocError, Global};
use std::collections::VecDeque;
use std::sync::Wait;
use std::thread::{Threads, available_parallelism};

/// How many crews run at a time, at most, one for each processor.
const MOST_FREE: usize = 4;

/// How many run where other programs use all processors: each thread that is woken then waits for one, and those of other crews run
/// meanwhile.
const MOST_BUSY: usize = 16;

/// How many threads crews have together, where it is more than one.
const MOST_THREADS: usize = 64;

/// How many permutations run ahead of their turn, at most: threads start once for so many, and the drafts of so many are in memory.
const MOST_AHEAD: u64 = 1024;

/// No crew is given fewer where so many are left.
const LEAST_TOGETHER: usize = 8;

/// How many processors there are for the threads; one where nobody can tell.
fn processors<R: Threads>(rt: &R) -> usize {
    match available_parallelism(rt) {
        Ok(count) => count.get(),
        Err(_) => 1,
    }
}

/// How many crews of so many sessions run at a time, where so many are wanted: each has a thread for each session, and the one it
/// runs in.
fn at_a_time(sessions: usize, wanted: usize) -> usize
    ensures few { (0 < result) × (result ≤ 16) }
    ensures wanted { (result ≡ 1) ⊎ (result ≤ wanted) }
    ensures threads { (result ≡ 1) ⊎ (result * (sessions + 1) ≤ 64) }
{
    let each = sessions.saturating_add(1);
    let fit = MOST_THREADS / each;
    fit.min(wanted).clamp(1, MOST_BUSY)
}

/// How many crews run the permutations of a spec at a time: one for each processor, or more where there are several that others use
/// too; one where it can serve all permutation lines, and nobody then asks for the processors.
fn crews_for<R: Threads + Wait>(rt: &R, alloc: Global, spec: &Spec<'_>) -> usize {
    if !spec.perms.is_empty() && spec.perms.len() <= LEAST_TOGETHER {
        return 1;
    }
    let processors = processors(rt);
    let wanted = if processors > 1 && is_busy(rt, alloc) {
        MOST_BUSY
    } else {
        processors.min(MOST_FREE)
    };
    at_a_time(spec.sessions.len(), wanted)
}

/// How many of so many permutations one crew serves: they are dealt out evenly, few of them to fewer crews.
fn together(permutations: usize, crews: usize) -> usize
    ensures { 0 < result }
{
    permutations.div_ceil(crews.max(1)).max(LEAST_TOGETHER)
}

/// The drafts of the permutations whose turn comes next, the permutations behind them, how many of all these may run, and by how
/// many crews, once it is known.
#[derive(Drop)]
pub struct Ahead<'s> {
    pub drafts: VecDeque<Draft>,
    pub behind: Permutations<'s>,
    pub left: u64,
    crews: Option<usize>,
}

fn copy_entry(alloc: Global, entry: &Entry) -> Result<Entry, AllocError>
    ensures { IfOk result (λ copy. entry_view copy ≡ entry_view entry.now) }
{
    Ok(Entry {
        session: entry.session,
        step: entry.step,
        markers: Vec::from_slice(alloc, &entry.markers)?,
    })
}

fn copy_of(alloc: Global, entries: &[Entry]) -> Result<Vec<Entry>, AllocError>
    ensures { IfOk result (λ copy. map entry_view copy.items ≡ map entry_view entries.now) }
{
    let mut copy = Vec::with_capacity(alloc, entries.len())?;
    for entry in entries {
        copy.push(copy_entry(alloc, entry)?)?;
    }
    Ok(copy)
}

/// The entries of the next permutations, of at most so many.
fn take_next(
    alloc: Global,
    permutations: &mut Permutations<'_>,
    most: u64,
) -> Result<Vec<Vec<Entry>>, AllocError>
    requires { 0 < most }
    ensures next { IfOk result (λ taken. permutations.old.more ≡ lists_of taken.items ++ permutations.new.more) }
    ensures over { IfOk result (λ taken. taken.items ≡ [] → permutations.new.more ≡ []) }
    ensures few { IfOk result (λ taken. length taken.items ≤ most) }
{
    let mut taken = Vec::new(alloc);
    while (taken.len() as u64) < most && permutations.advance(alloc)? {
        taken.push(copy_of(alloc, permutations.entries())?)?;
    }
    Ok(taken)
}

/// What the permutations of a file are lent.
#[derive(Drop)]
pub struct FileLent<'r, 't> {
    pub file: &'r SpecFile<'t>,
}

impl<'r, 't> Lent for FileLent<'r, 't> {
    ghost gives = { λ lent draft. IsDraft (spec_view lent.file.now.spec) (blocks_of lent.file.now.blocks.items) draft };
}

/// The drafts of these permutations, which run side by side, so many together.
fn drafts_of<
    F: Fn(&SpecFile<'_>, Vec<Vec<Entry>>, Vec<Draft>) -> Vec<Draft> + Sync,
    R: Threads + Wait,
>(
    rt: &R,
    alloc: Global,
    file: &SpecFile<'_>,
    run: &F,
    taken: Vec<Vec<Entry>>,
    together: usize,
) -> Result<Vec<Draft>, AllocError>
    requires runs { RunsEach (F.pre run.now) (F.post run.now) }
    requires stands { Stands (spec_view file.now.spec) }
    requires some { 0 < together }
    ensures { IfOk result (AreDrafts (IsDraft (spec_view file.now.spec) (blocks_of file.now.blocks.items)) taken.items) }
{
    let run_some = |taken: Vec<Vec<Entry>>, room: Vec<Draft>| -> Vec<Draft>
        requires runs { RunsEach (F.pre run.now) (F.post run.now) × Stands (spec_view file.now.spec) }
        requires room { HasRoomFor room taken.items }
        ensures { AreDrafts (IsDraft (spec_view file.entry.now.spec) (blocks_of file.entry.now.blocks.items)) taken.items result }
    { run(file, taken, room) };
    side_by_side(rt, alloc, &FileLent { file }, &run_some, taken, together)
}

impl<'s> Ahead<'s> {
    /// The permutations of the spec, of which none has run and so many may.
    pub fn of(alloc: Global, spec: &'s Spec<'_>, limit: u64) -> Result<Ahead<'s>, AllocError>
        requires { Stands (spec_view spec.now) }
        ensures drafts { IfOk result (λ ahead. ahead.drafts.items ≡ []) }
        ensures behind { IfOk result (λ ahead. ahead.behind.more ≡ permutations_of (spec_view spec.now)) }
        ensures left { IfOk result (λ ahead. ahead.left ≡ limit) }
    {
        Ok(Ahead {
            drafts: VecDeque::new(alloc),
            behind: Permutations::of(alloc, spec)?,
            left: limit,
            crews: None,
        })
    }

    /// Runs the next permutations, no more than may run, where no draft is left.
    fn fill<
        F: Fn(&SpecFile<'_>, Vec<Vec<Entry>>, Vec<Draft>) -> Vec<Draft> + Sync,
        R: Threads + Wait,
    >(&mut self, rt: &R, alloc: Global, file: &SpecFile<'_>, run: &F) -> Result<(), AllocError>
        requires runs { RunsEach (F.pre run.now) (F.post run.now) }
        requires stands { Stands (spec_view file.now.spec) }
        requires some { 0 < self.old.left }
        requires few { length self.old.drafts.items ≤ self.old.left }
        requires drafts { All (IsDraft (spec_view file.now.spec) (blocks_of file.now.blocks.items)) self.old.drafts.items }
        ensures drafts { OnOk result (All (IsDraft (spec_view file.now.spec) (blocks_of file.now.blocks.items)) self.new.drafts.items) }
        ensures few { OnOk result (length self.new.drafts.items ≤ self.old.left) }
        ensures ahead { OnOk result (length self.old.drafts.items ≤ 1024 → length self.new.drafts.items ≤ 1024) }
        ensures left { OnOk result (self.new.left ≡ self.old.left) }
        ensures same { OnOk result (to_come self.old.drafts.items self.old.behind.more ≡ to_come self.new.drafts.items self.new.behind.more) }
        ensures over { OnOk result (self.new.drafts.items ≡ [] → self.new.behind.more ≡ []) }
    {
        if !self.drafts.is_empty() {
            return Ok(());
        }
        let crews = match self.crews {
            Some(crews) => crews,
            None => crews_for(rt, alloc, &file.spec),
        };
        self.crews = Some(crews);
        let most = self.left.min(MOST_AHEAD);
        let taken = take_next(alloc, &mut self.behind, most)?;
        let together = together(taken.len(), crews);
        self.drafts = drafts_of(rt, alloc, file, run, taken, together)?.into();
        Ok(())
    }

    /// Takes the draft of the permutation whose turn it is, where one is left and may run. Where none was run ahead, the next
    /// ones run: there are never more drafts than permutations that may still run.
    pub fn next<
        F: Fn(&SpecFile<'_>, Vec<Vec<Entry>>, Vec<Draft>) -> Vec<Draft> + Sync,
        R: Threads + Wait,
    >(
        &mut self,
        rt: &R,
        alloc: Global,
        file: &SpecFile<'_>,
        run: &F,
    ) -> Result<Option<Draft>, AllocError>
        requires runs { RunsEach (F.pre run.now) (F.post run.now) }
        requires stands { Stands (spec_view file.now.spec) }
        requires few { length self.old.drafts.items ≤ self.old.left }
        requires drafts { All (IsDraft (spec_view file.now.spec) (blocks_of file.now.blocks.items)) self.old.drafts.items }
        ensures drafts { OnOk result (All (IsDraft (spec_view file.now.spec) (blocks_of file.now.blocks.items)) self.new.drafts.items) }
        ensures few { OnOk result (length self.new.drafts.items ≤ self.new.left) }
        ensures ahead { OnOk result (length self.old.drafts.items ≤ 1024 → length self.new.drafts.items ≤ 1024) }
        ensures is { IfOk result (λ next. IfSome next (IsDraft (spec_view file.now.spec) (blocks_of file.now.blocks.items))) }
        ensures next { IfOk result (λ next. IfSome next (λ draft.
            to_come self.old.drafts.items self.old.behind.more ≡ entries_of draft ∷ to_come self.new.drafts.items self.new.behind.more)) }
        ensures left { IfOk result (λ next. IfSome next (λ _. self.old.left ≡ self.new.left + 1)) }
        ensures over { IfOk result (λ next. IfNone next ((self.old.left ≡ 0) ⊎ (to_come self.old.drafts.items self.old.behind.more ≡ []))) }
        ensures same { IfOk result (λ next. IfNone next ((self.new.left ≡ self.old.left)
            × (to_come self.new.drafts.items self.new.behind.more ≡ to_come self.old.drafts.items self.old.behind.more))) }
    {
        if self.left == 0 {
            return Ok(None);
        }
        self.fill(rt, alloc, file, run)?;
        let Some(draft) = self.drafts.pop_front() else {
            return Ok(None);
        };
        self.left -= 1;
        Ok(Some(draft))
    }

    /// Whether no permutation is left.
    pub fn is_over(&mut self, alloc: Global) -> Result<bool, AllocError>
        ensures over { IfOk result (λ over. OnTrue over (to_come self.old.drafts.items self.old.behind.more ≡ [])) }
        ensures more { IfOk result (λ over. OnFalse over (to_come self.old.drafts.items self.old.behind.more ≢ [])) }
    {
        Ok(self.drafts.is_empty() && !self.behind.advance(alloc)?)
    }
}
