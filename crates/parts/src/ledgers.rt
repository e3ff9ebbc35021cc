//! The same calls on a ledger that counts and on one that marks.
use ledger::{Counts, Ledger, Row, Tally};
use marks::{MarkRow, Marks};
use records::{Outcome, WriteAtState};
use std::io;

const LOST: Outcome = Outcome::Io { code: 5 };

const FULL: Outcome = Outcome::Io { code: 28 };

fn show_row<L: Ledger>(rt: &HostRuntime, ledger: &L, row: usize) -> io::Result<()> {
    print!(rt; "  row {row}: {} completed, ", ledger.begin_sync(row))?;
    match ledger.needs_sync(row) {
        Ok(true) => println!(rt; "a sync is needed"),
        Ok(false) => println!(rt; "no sync is needed"),
        Err(taint) => println!(rt; "tainted {taint}"),
    }
}

fn show_answer<L: Ledger>(rt: &HostRuntime, ledger: &L, answer: Outcome) -> io::Result<()> {
    println!(rt; ": {answer}")?;
    show_row(rt, ledger, 0)
}

fn tell<L: Ledger>(
    rt: &HostRuntime,
    ledger: &mut L,
    state: WriteAtState,
    res: Outcome,
) -> io::Result<()> {
    print!(rt; "wrote {state} {res}")?;
    let answer = ledger.wrote(0, state, res);
    show_answer(rt, ledger, answer)
}

fn sync<L: Ledger>(rt: &HostRuntime, ledger: &mut L, seen: u64) -> io::Result<()> {
    print!(rt; "end_sync {seen}")?;
    let answer = ledger.end_sync(0, seen);
    show_answer(rt, ledger, answer)
}

// Whatever is told once a row is tainted, its taint stays.
fn play_taint<L: Ledger>(rt: &HostRuntime, ledger: &mut L) -> io::Result<()> {
    tell(rt, ledger, WriteAtState::Writing, LOST)?;
    tell(rt, ledger, WriteAtState::WritingSync, LOST)?;
    tell(rt, ledger, WriteAtState::Syncing, Outcome::Ok)?;
    println!(rt; "sync_failed io 28")?;
    ledger.sync_failed(0, FULL);
    show_row(rt, ledger, 0)?;
    sync(rt, ledger, 2)?;
    println!(rt; "fresh")?;
    ledger.fresh(0);
    show_row(rt, ledger, 0)
}

fn play_many<L: Ledger>(rt: &HostRuntime, ledger: &mut L) -> io::Result<()> {
    for _ in 0..256u32 {
        ledger.wrote(1, WriteAtState::Writing, Outcome::Ok);
    }
    println!(rt; "256 writes")?;
    show_row(rt, ledger, 1)?;
    println!(rt; "the 257th")?;
    ledger.wrote(1, WriteAtState::Writing, Outcome::Ok);
    show_row(rt, ledger, 1)?;
    println!(rt; "a row that it lacks")?;
    ledger.wrote(2, WriteAtState::Writing, Outcome::Ok);
    show_row(rt, ledger, 2)
}

fn play<L: Ledger>(rt: &HostRuntime, ledger: &mut L) -> io::Result<()> {
    println!(rt; "{} rows, most {}", ledger.len(), L::limit())?;
    tell(rt, ledger, WriteAtState::Writing, Outcome::Ok)?;
    tell(
        rt,
        ledger,
        WriteAtState::WritingBeforeSync,
        Outcome::WriteFailed,
    )?;
    tell(rt, ledger, WriteAtState::WritingSync, Outcome::Ok)?;
    sync(rt, ledger, 1)?;
    sync(rt, ledger, 9)?;
    play_taint(rt, ledger)?;
    play_many(rt, ledger)
}

pub(crate) fn play_ledgers(rt: &HostRuntime) -> io::Result<()> {
    println!(rt; "== a ledger that counts")?;
    play(rt, &mut Counts::new(&mut [Row::fresh(); 2]))?;
    println!(rt; "== a ledger that marks")?;
    play(rt, &mut Marks::new(&mut [MarkRow::fresh(); 2]))
}
