//! What a program does with a running cache.

ghost use Rattle.std.specs.Prelude.{◌≡◌, [], IfOk, OnOk, length, map, vec_len};
ghost use Rattle.std.specs.List.{All, zip};
ghost use Rattle.cm_cache.specs.Shared.{PassState};
ghost use Rattle.cm_library.specs.Running.{EachTwo, KeepsAlone, KeepsEach, KeepsWorks};
ghost use Rattle.cm_library.specs.Running.{passes_for};

use cm_cache::{Cache, Naming, Pass};
use cm_commands::Refusal;
use std::alloc::{AllocError, Global};
use std::sync::Wait;
use std::thread;
use std::thread::Threads;

/// What a thread does with a running cache.
pub trait Work<R> {
    /// What it returns, its own error included.
    type Output;

    /// What holds before it is done.
    ghost may_run: { Self → Type 0 };

    /// What holds of the work, of its output, and of the pass after it.
    ghost keeps: { Self → Self.Output → PassState → Type 0 };

    /// Does the work. The pass is the thread's own: calls that change the cache are made through
    /// it. `K` names the cache.
    fn run<K: Naming>(
        self,
        rt: &R,
        alloc: Global,
        cache: &Cache<K>,
        pass: &mut Pass<K>,
    ) -> Self::Output
        requires { may_run self }
        ensures { keeps self result pass.new };
}

// A work, with the pass for it.
#[derive(Drop)]
struct Worker<K: Naming, W: Drop> {
    work: W,
    pass: Pass<K>,
}

// What a work returned, with its pass.
#[derive(Drop)]
struct Done<K: Naming, T: Drop> {
    output: T,
    pass: Pass<K>,
}

/// Does a work in this thread, through the only pass.
pub(crate) fn work_alone<K, R, W>(
    rt: &R,
    alloc: Global,
    cache: &Cache<K>,
    work: W,
    passes: &mut Vec<Pass<K>>,
) -> W::Output
where
    K: Naming,
    R: Wait,
    W: Work<R>,
    requires may_run { W.may_run work }
    requires one { length passes.old.items ≡ 1 }
    ensures { KeepsAlone (W.keeps work) result passes.new.items }
{
    work.run(rt, alloc, cache, &mut passes[0])
}

/// Does each work in a thread of its own, through a pass of its own, and puts the passes back.
pub(crate) fn work_in_threads<K, R, W>(
    rt: &R,
    alloc: Global,
    cache: &Cache<K>,
    works: Vec<W>,
    drawn: Vec<Pass<K>>,
    passes: &mut Vec<Pass<K>>,
) -> Result<Vec<W::Output>, Refusal>
where
    K: Naming + Send + Sync,
    R: Threads + Wait + Sync,
    W: Work<R> + Drop + Send,
    W::Output: Drop + Send,
    requires may_run { All W.may_run works.items }
    requires enough { length drawn.items ≡ passes_for (vec_len works) }
    requires none { passes.old.items ≡ [] }
    ensures { KeepsWorks W.keeps works result passes.new.items }
{
    if drawn.len() < works.len() {
        return Err(Refusal::NumbersSpent);
    }
    match do_works(rt, alloc, cache, works, drawn, passes) {
        Ok(outputs) => Ok(outputs),
        Err(_) => Err(Refusal::NoMemory),
    }
}

// The same, if there is a pass for each work.
fn do_works<K, R, W>(
    rt: &R,
    alloc: Global,
    cache: &Cache<K>,
    works: Vec<W>,
    drawn: Vec<Pass<K>>,
    passes: &mut Vec<Pass<K>>,
) -> Result<Vec<W::Output>, AllocError>
where
    K: Naming + Send + Sync,
    R: Threads + Wait + Sync,
    W: Work<R> + Drop + Send,
    W::Output: Drop + Send,
    requires may_run { All W.may_run works.items }
    requires enough { length works.items ≡ length drawn.items }
    requires none { passes.old.items ≡ [] }
    ensures { IfOk result
        (λ outputs. KeepsEach W.keeps works.items outputs.items passes.new.items) }
{
    let workers = workers(alloc, works, drawn)?;
    let all = do_all(rt, alloc, cache, workers)?;
    put_back(alloc, all, passes)
}

// A pass for each work.
fn workers<K: Naming, W: Drop>(
    alloc: Global,
    works: Vec<W>,
    passes: Vec<Pass<K>>,
) -> Result<Vec<Worker<K, W>>, AllocError>
    ensures { IfOk result (λ all. all.items
        ≡ map (λ p. record { work = p.0; pass = p.1 }) (zip works.items passes.items)) }
{
    works
        .into_iter()
        .zip(passes)
        .map(|(work, pass)| Worker { work, pass })
        .collect(alloc)
}

// A thread for each.
fn do_all<K, R, W>(
    rt: &R,
    alloc: Global,
    cache: &Cache<K>,
    workers: Vec<Worker<K, W>>,
) -> Result<Vec<Done<K, W::Output>>, AllocError>
where
    K: Naming + Send + Sync,
    R: Threads + Wait + Sync,
    W: Work<R> + Drop + Send,
    W::Output: Drop + Send,
    requires { All (λ worker. W.may_run worker.work) workers.items }
    ensures { IfOk result (λ all. EachTwo
        (λ worker done. W.keeps worker.work done.output done.pass) workers.items all.items) }
{
    thread::map_vec(
        rt,
        workers,
        &|worker| -> Done<K, W::Output>
            requires { W.may_run worker.work }
            ensures { W.keeps worker.work result.output result.pass }
        {
            let Worker { work, mut pass } = worker;
            let output = work.run(rt, alloc, cache, &mut pass);
            Done { output, pass }
        },
    )
}

// Parts what the works returned from their passes.
fn put_back<K: Naming, T: Drop>(
    alloc: Global,
    all: Vec<Done<K, T>>,
    passes: &mut Vec<Pass<K>>,
) -> Result<Vec<T>, AllocError>
    requires { passes.old.items ≡ [] }
    ensures outputs { IfOk result (λ v. v.items ≡ map (λ done. done.output) all.items) }
    ensures passes { OnOk result (passes.new.items ≡ map (λ done. done.pass) all.items) }
{
    let mut outputs = Vec::new(alloc);
    for done in all {
        let Done { output, pass } = done;
        passes.push(pass)?;
        outputs.push(output)?;
    }
    Ok(outputs)
}
