//! The accepted cache: the cost of its calls, by how much lives in it.

mod classes;
mod names;
mod phase;
mod report;
mod samples;
mod scene;
mod stage;

use crate::front::report::report;
use crate::front::samples::Samples;
use crate::front::scene::{COUNTS, Scene};
use anyhow::Result;
use std::rt::Clock;

/// Makes the calls on caches of each count.
fn bench_scene(
    rt: &(impl Clock + Print + AllocGlobal),
    scene: Scene,
    times: Option<u32>,
) -> Result<()> {
    for count in COUNTS {
        let samples = Samples::new(rt.alloc(), scene, count)?;
        report(rt, &samples, times)?;
    }
    Ok(())
}

/// Makes the calls on caches of each scene.
pub fn bench(rt: &(impl Clock + Print + AllocGlobal), times: Option<u32>) -> Result<()> {
    for scene in Scene::ALL {
        bench_scene(rt, scene, times)?;
    }
    Ok(())
}
