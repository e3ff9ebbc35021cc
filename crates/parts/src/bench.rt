//! What a call costs, by the size of the tables.
use ledger::{LentLedger, Row, Tally};
use marks::MarkRow;
use records::{Outcome, WriteAtState};
use slots::{Slab, Slot};
use std::io;
use std::time::{Duration, Instant};

/// Rounds over the largest table; smaller ones take as many calls in more rounds.
const LARGEST: u32 = 65536;

// Fills a slab, looks each entry up and takes each out; what it saw, so that no call is left out. By index, since
// `id_at` is one of the calls that are measured.
fn turn_slab(slab: &mut Slab<u64>, entries: u32) -> u64 {
    let mut seen = 0u64;
    for i in 0..entries {
        slab.insert(u64::from(i));
    }
    for i in 0..entries {
        if let Some(id) = slab.id_at(i) {
            seen = seen.wrapping_add(slab.get(id).unwrap_or(0));
        }
    }
    for i in 0..entries {
        if let Some(id) = slab.id_at(i) {
            seen = seen.wrapping_add(slab.remove(id).unwrap_or(0));
        }
    }
    seen
}

// A write and the sync that covers it, on each row.
fn turn_ledger<T: Tally>(ledger: &mut LentLedger<T>, rows: u32) -> u64 {
    let mut seen = 0u64;
    for row in 0..rows as usize {
        ledger.wrote(row, WriteAtState::Writing, Outcome::Ok);
        let began = ledger.begin_sync(row);
        ledger.end_sync(row, began);
        seen = seen.wrapping_add(began);
        if let Ok(true) = ledger.needs_sync(row) {
            seen = seen.wrapping_add(1);
        }
        if began >= 200 {
            ledger.fresh(row);
        }
    }
    seen
}

fn calls_of(entries: u32, turns: u32, each: u64) -> u64 {
    u64::from(entries)
        .saturating_mul(u64::from(turns))
        .saturating_mul(each)
}

fn show(
    rt: &HostRuntime,
    what: &str,
    entries: u32,
    calls: u64,
    took: Duration,
    seen: u64,
) -> io::Result<()> {
    let picos = took.as_nanos().saturating_mul(1000) / u128::from(calls.max(1));
    println!(rt;
        "{what} of {entries}: {}.{:03} ns a call ({calls} calls, sum {seen})",
        picos / 1000,
        picos % 1000
    )
}

fn time_slab(rt: &HostRuntime, entries: u32, turns: u32) -> io::Result<()> {
    let mut slots = vec![in rt.alloc(); Slot::<u64>::unused(); entries as usize]?;
    let mut slab = Slab::new(&mut slots);
    let mut seen = turn_slab(&mut slab, entries);
    let start = Instant::now(rt)?;
    for _ in 0..turns {
        seen = seen.wrapping_add(turn_slab(&mut slab, entries));
    }
    let took = start.elapsed(rt)?;
    let calls = calls_of(entries, turns, 5);
    show(rt, "slab", entries, calls, took, seen)
}

fn time_ledger<T: Tally>(rt: &HostRuntime, what: &str, rows: u32, turns: u32) -> io::Result<()> {
    let mut table = vec![in rt.alloc(); T::fresh(); rows as usize]?;
    let mut ledger = LentLedger::new(&mut table);
    let mut seen = turn_ledger(&mut ledger, rows);
    let start = Instant::now(rt)?;
    for _ in 0..turns {
        seen = seen.wrapping_add(turn_ledger(&mut ledger, rows));
    }
    let took = start.elapsed(rt)?;
    let calls = calls_of(rows, turns, 4);
    show(rt, what, rows, calls, took, seen)
}

pub(crate) fn measure(rt: &HostRuntime) -> io::Result<()> {
    for entries in [64u32, 4096, LARGEST] {
        let rounds = LARGEST / entries;
        time_slab(rt, entries, rounds * 256)?;
        time_ledger::<Row>(rt, "counts", entries, rounds * 256)?;
        time_ledger::<MarkRow>(rt, "marks", entries, rounds * 8)?;
    }
    Ok(())
}
