// Lanes and parts that meet at a gate.
use super::tests::{GROUP, GROUP_REPORT, SOUND, run_at};
use ports::Gate;
use std::sync::atomic::{AtomicBool, Ordering};
use std::test::Fail;
use std::thread::Threads;

// The subgroups of index at most nine of the cyclic group of order eleven. The search is long
// enough to be cut.
const SUBGROUPS: &str =
    "monoid ab\nrel aaaaaaaaaaa 1\nrel bbbbbbbbbbb 1\nrel abba 1\nlowindex 9 10\n";

const SUBGROUP_TABLES: &str = "0,0\nend\n";

// A gate at which lanes 0 and 1 look for each other at their first turns.
#[derive(Drop)]
struct Meeting<'a> {
    front: &'a AtomicBool,
    back: &'a AtomicBool,
    front_saw: &'a AtomicBool,
    back_saw: &'a AtomicBool,
}

// At the first pass, sets a mark and looks a while for another.
fn first_pass(mine: &AtomicBool, other: &AtomicBool, saw: &AtomicBool) {
    if mine.swap(true, Ordering::SeqCst) {
        return;
    }
    for _ in 0..200_000_000u32 {
        if other.load(Ordering::SeqCst) {
            saw.store(true, Ordering::SeqCst);
            return;
        }
    }
}

impl<'a> Gate for Meeting<'a> {
    fn pass(&self, number: usize) {
        match number {
            0 => first_pass(self.front, self.back, self.front_saw),
            1 => first_pass(self.back, self.front, self.back_saw),
            _ => (),
        }
    }
}

// Whether two workers give this report, and 0 and 1 see each other in the gate.
fn meet_in_the_gate<R: Threads + Sync + AllocGlobal>(
    rt: &R,
    script: &str,
    report: &str,
) -> Result<bool, Fail> {
    let (front, back) = (AtomicBool::new(false), AtomicBool::new(false));
    let (front_saw, back_saw) = (AtomicBool::new(false), AtomicBool::new(false));
    let gate = Meeting {
        front: &front,
        back: &back,
        front_saw: &front_saw,
        back_saw: &back_saw,
    };
    let words = ["semi", "--workers", "2"];
    let ended = run_at(rt, &words, script.as_bytes(), SOUND, &gate)?;
    if ended.status != 0 || ended.out.as_slice() != report.as_bytes() {
        return Ok(false);
    }
    Ok(front_saw.load(Ordering::SeqCst) && back_saw.load(Ordering::SeqCst))
}

#[test]
fn two_workers_meet(rt: HostRuntime) -> Result<(), Fail> {
    assert!(rt; meet_in_the_gate(&rt, GROUP, GROUP_REPORT)?);
    assert!(rt; meet_in_the_gate(&rt, SUBGROUPS, SUBGROUP_TABLES)?);
    Ok(())
}
