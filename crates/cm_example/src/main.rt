//! `cm_example FILE JAR`: four threads define the classes of a jar in a cache in a new file, and
//! look each of them up.
#![tactic(auto)]

use anyhow::{Context, Result, bail};
use cm_jar::Jar;
use cm_library::{
    Cache, Finished, Geometry, Naming, Pass, Work, create_file, format, open, open_file, prepare,
};
use std::alloc::Global;
use std::fs::{File, Files};
use std::process::ExitCode;
use std::rt::Env;
use std::sync::Wait;
use std::thread::Threads;
use std::{env, fs};

/// The loaders, one for each thread.
const LOADERS: [&[u8]; 4] = [b"a", b"b", b"c", b"d"];

/// A thread's work: every fourth entry of a jar, for a loader of its own.
#[derive(Drop)]
struct Share<'a> {
    jar: &'a Jar<'a>,
    thread: usize,
}

impl<R: Wait> Work<R> for Share<'_> {
    type Output = Result<usize>;

    ghost may_run = { λ _. Unit {0} };

    ghost keeps = { λ _ _ _. Unit {0} };

    /// Defines the classes, and returns how many are then found.
    fn run<K: Naming>(
        self,
        rt: &R,
        alloc: Global,
        cache: &Cache<K>,
        pass: &mut Pass<K>,
    ) -> Result<usize> {
        let loader = LOADERS[self.thread % 4];
        cache.add_loader(rt, pass, loader)?; // returns once the loader is stored
        let mut found = 0usize;
        for entry in self.jar.entries().iter().skip(self.thread).step_by(4) {
            if let Some(name) = entry.name().strip_suffix(b".class") {
                let class = prepare(alloc, &entry.content(alloc)?)?; // read and checked, no lock
                cache.define(rt, pass, loader, class)?; // returns once the class is stored
                let record = cache.find(rt, loader, name)?;
                found = found.saturating_add(usize::from(record.is_some()));
            }
        }
        Ok(found)
    }
}

/// Makes a file with an empty cache, and has threads define the classes of a jar in it.
fn define_jar<R>(rt: &R, path: &str, jar: &Jar<'_>) -> Result<()>
where
    R: Files<File = File> + Print + AllocGlobal + Threads + Wait + Copy + Send + Sync + 'static,
{
    let alloc = rt.alloc();
    let sizes = Geometry::new(8, 64, 4_096).context("sizes")?;
    format(alloc, &mut create_file(rt, alloc, path)?, sizes)?;
    let mut shares = Vec::new(alloc);
    for thread in 0..LOADERS.len() {
        shares.push(Share { jar, thread })?;
    }
    let opened = match open(rt, alloc, open_file(rt, path)?, 4) {
        Ok(opened) => opened,
        Err(not_opened) => bail!("{path}: {}", not_opened.fault),
    };
    let Finished {
        output,
        counts,
        disk: _,
    } = opened.run_in_threads(rt, alloc, shares)?;
    println!(rt;
        "{} of {} commands are stored",
        counts.committed, counts.handed
    )?;
    if counts.unsure() > 0 {
        bail!(
            "commands {} to {} are unsure",
            counts.committed + 1,
            counts.handed
        );
    }
    for found in output? {
        println!(rt; "{} classes are found", found?)?;
    }
    Ok(())
}

/// Reads the jar that the command line names.
fn run<R>(rt: &R) -> Result<()>
where
    R: Env
        + Files<File = File>
        + Print
        + AllocGlobal
        + Threads
        + Wait
        + Copy
        + Send
        + Sync
        + 'static,
{
    let mut words = env::args(rt)?.skip(1);
    let path = words.next().context("usage: cm_example FILE JAR")?;
    let jar = words.next().context("usage: cm_example FILE JAR")?;
    define_jar(rt, &path, &Jar::read(rt.alloc(), &fs::read(rt, &jar)?)?)
}

fn main(rt: HostRuntime) -> ExitCode {
    match run(&rt) {
        Ok(()) => ExitCode::from(0),
        Err(error) => {
            let _ = eprintln!(rt; "cm_example: {error}");
            ExitCode::from(3)
        }
    }
}
