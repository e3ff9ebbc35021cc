//! Plays a short list of list, slab and ledger calls and prints their answers; with the word `bench` it measures their cost.
#![tactic(auto)]

mod bench;
mod ledgers;
mod lists;
mod slabs;

use crate::bench::measure;
use crate::ledgers::play_ledgers;
use crate::lists::play_lists;
use crate::slabs::play_slab;
use std::{env, io};

fn main(rt: HostRuntime) -> io::Result<()> {
    let words: Vec<String> = env::args(&rt)?.skip(1).collect(rt.alloc())?;
    if let Some(word) = words.first() {
        if word.as_str() == "bench" {
            return measure(&rt);
        }
    }
    play_lists(&rt)?;
    play_slab(&rt)?;
    play_ledgers(&rt)
}
