//! Gates that hold the workers of a run, so that they come in an order that the test has chosen.

use crate::case::{Case, Outcome, ran};
use proof_manager::Gate;
use std::alloc::Global;
use std::process::Abort;
use std::sync::atomic::{AtomicU64, Ordering};
use std::sync::{Condvar, Mutex, Wait};
use std::test::Fail;
use std::thread::Threads;

/// The bit of a job in a set of the first 64 jobs.
fn bit(job: u64) -> u64 {
    if job < 64 { 1 << job } else { 0 }
}

/// Counts the jobs that are entered, and adds up their bits. So many bits whose sum has as many ones are of different jobs.
#[derive(Drop)]
struct Counted {
    count: AtomicU64,
    bits: AtomicU64,
}

impl Counted {
    fn new() -> Counted {
        Counted {
            count: AtomicU64::new(0),
            bits: AtomicU64::new(0),
        }
    }
}

impl Gate for Counted {
    fn enter(&self, _worker: u64, job: u64) {
        self.count.fetch_add(1, Ordering::SeqCst);
        self.bits.fetch_add(bit(job), Ordering::SeqCst);
    }
}

/// Holds a job till others were entered: for each of the first jobs the set of those that it waits for, where it waits for some.
#[derive(Drop)]
struct Held<'a, R> {
    rt: &'a R,
    waits_for: &'a [u64],
    entered: Mutex<u64>,
    changed: Condvar,
}

impl<'a, R: Wait> Held<'a, R> {
    fn new(rt: &'a R, waits_for: &'a [u64]) -> Held<'a, R> {
        Held {
            rt,
            waits_for,
            entered: Mutex::new(0),
            changed: Condvar::new(),
        }
    }
}

impl<'a, R: Wait + Sync> Gate for Held<'a, R> {
    fn enter(&self, _worker: u64, job: u64) {
        let mut entered = self.entered.lock(self.rt);
        *entered |= bit(job);
        self.changed.notify_all();
        let awaited = self.waits_for.get(job as usize).copied().unwrap_or(0);
        self.changed
            .wait_while(self.rt, entered, |entered| *entered & awaited != awaited);
    }
}

/// A run of a demonstration with these words behind the module's.
fn shown<R: Threads + Sync, G: Gate>(
    rt: &R,
    alloc: Global,
    gate: &G,
    words: &[&str],
) -> Result<Outcome, Fail> {
    let case = Case {
        modules: &[("M", "---- MODULE M ----\n====\n")],
        words,
        shelf_fails: &[],
        room: 100,
        cache: b"",
        cache_fails: &[],
    };
    ran(rt, alloc, gate, &case)
}

/// Compares demonstrations by the words behind the module's, the jobs that are held, the exit status and the report.
fn compare<R: Abort + Threads + Wait + Sync>(
    rt: &R,
    alloc: Global,
    waits_for: &[u64],
    words: &[&str],
    code: u8,
    report: &str,
) -> Result<(), Fail> {
    let gate = Held::new(rt, waits_for);
    let got = shown(rt, alloc, &gate, words)?;
    assert_eq!(rt; got.code, code);
    assert_eq!(rt; got.taken.as_slice(), report.as_bytes());
    Ok(())
}

#[test]
fn the_first_job_waits_for_the_second(rt: HostRuntime) -> Result<(), Fail> {
    compare(
        &rt,
        rt.alloc(),
        &[2, 0],
        &["M", "--demo", "2", "--workers", "2"],
        0,
        "2 theorems, 2 proved\n",
    )
}

#[test]
fn all_jobs_are_in_at_once(rt: HostRuntime) -> Result<(), Fail> {
    for workers in ["8", "64"] {
        compare(
            &rt,
            rt.alloc(),
            &[127; 7],
            &["M", "--demo", "7", "--workers", workers],
            0,
            "7 theorems, 7 proved\n",
        )?;
    }
    Ok(())
}

/// A demonstration of seven jobs, of which this one is held till all others were entered.
fn hold_one<R: Abort + Threads + Wait + Sync>(
    rt: &R,
    alloc: Global,
    job: usize,
    workers: &str,
) -> Result<(), Fail> {
    let mut waits_for = [0u64; 7];
    if let Some(awaited) = waits_for.get_mut(job) {
        *awaited = 127;
    }
    let words = ["M", "--demo", "7", "--workers", workers];
    compare(rt, alloc, &waits_for, &words, 0, "7 theorems, 7 proved\n")
}

#[test]
fn each_job_may_be_the_last(rt: HostRuntime) -> Result<(), Fail> {
    for workers in ["2", "8", "64"] {
        for job in 0..7 {
            hold_one(&rt, rt.alloc(), job, workers)?;
        }
    }
    Ok(())
}

#[test]
fn an_earlier_failure_that_comes_later_ends_the_report(rt: HostRuntime) -> Result<(), Fail> {
    // jobs 9 and 19 fail, and 9 is held till 19 was entered
    let mut waits_for = [0u64; 10];
    waits_for[9] = 1 << 19;
    compare(
        &rt,
        rt.alloc(),
        &waits_for,
        &["M", "--demo", "30", "--stop", "--workers", "2"],
        1,
        "10 theorems, 9 proved, stopped\n",
    )
}

#[test]
fn one_worker_enters_no_job_behind_a_failed_one(rt: HostRuntime) -> Result<(), Fail> {
    let table: [(&[&str], u64, u64); 3] = [
        (&["M", "--demo", "20", "--stop", "--workers", "1"], 10, 1023),
        (&["M", "--demo", "20", "--workers", "1"], 20, 1048575),
        (&["M", "--demo", "20", "--workers", "8"], 20, 1048575),
    ];
    for (words, count, bits) in &table {
        let gate = Counted::new();
        let got = shown(&rt, rt.alloc(), &gate, words)?;
        assert_eq!(rt; got.code, 1);
        assert_eq!(rt; gate.count.load(Ordering::SeqCst), *count);
        assert_eq!(rt; gate.bits.load(Ordering::SeqCst), *bits);
    }
    Ok(())
}
