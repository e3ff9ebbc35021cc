//! Plays texts of transfers, and prints what becomes of each.
#![tactic(auto)]

mod fault;
mod input;
mod play;
mod show;

use crate::fault::Fault;
use crate::play::play_text;
use std::{env, fs, io};

fn play_all(rt: &HostRuntime, text: &str) -> Result<(), Fault> {
    match play_text(rt, text)? {
        Some(_) => Err(Fault::Unreadable),
        None => Ok(()),
    }
}

// The error that main ends with does not name the file.
fn read_file(rt: &HostRuntime, name: &str) -> io::Result<String> {
    let text = fs::read_to_string(rt, name);
    if let Err(e) = &text {
        eprintln!(rt; "{name}: {e}")?;
    }
    text
}

fn main(rt: HostRuntime) -> Result<(), Fault> {
    let names: Vec<String> = env::args(&rt)?.skip(1).collect(rt.alloc())?;
    if names.is_empty() {
        let text = io::read_to_string(rt.alloc(), rt.stdin())?;
        return play_all(&rt, text.as_str());
    }
    for name in names.iter() {
        println!(rt; "== {name}")?;
        let text = read_file(&rt, name.as_str())?;
        play_all(&rt, text.as_str())?;
    }
    Ok(())
}
