// Parts of work over threads.
ghost use Rattle.std.specs.Prelude.{◌≡◌, ◌≤◌};

use crate::helpers::{MANY, Seeker, seeks};
use ports::{NoMemory, Open};
use sims_one::{Part, run_parts};
use std::alloc::Global;
use std::sync::atomic::AtomicBool;
use std::thread::Threads;

// The part looks for the mark of another.
impl<'a> Part for Seeker<'a> {
    ghost Task = { Unit {0} };

    ghost task = { λ _. tt };

    ghost is_done = { λ _. Unit {0} };

    fn run(&mut self) -> Result<(), NoMemory> {
        self.look();
        Ok(())
    }
}

// Whether each of two parts saw the other's mark.
fn met<T: Threads + Sync>(
    rt: &T,
    alloc: Global,
    workers: usize,
    looks: u32,
) -> Result<(bool, bool), NoMemory>
    requires { 1 ≤ workers }
{
    let (front, back) = (AtomicBool::new(false), AtomicBool::new(false));
    let (first, second) = (seeks(&front, &back, looks), seeks(&back, &front, looks));
    let mut parts = vec![in alloc; first, second]?;
    run_parts(rt, alloc, &mut parts, workers, &Open)?;
    let mut saw = parts.iter().map(|part| part.saw);
    Ok((saw.next() == Some(true), saw.next() == Some(true)))
}

// One worker runs the parts one after another.
#[test]
fn two_workers_run_parts_side_by_side(rt: HostRuntime) {
    assert!(rt; met(&rt, rt.alloc(), 2, MANY) == Ok((true, true)));
    assert!(rt; met(&rt, rt.alloc(), 1, 1_000) == Ok((false, true)));
}
