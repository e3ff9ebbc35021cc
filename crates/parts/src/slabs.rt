//! Calls on a slab of three slots, over memory that held something else.
use records::Id;
use slots::{Slab, Slot};
use std::io;

const OLD_MEMORY: Slot<u64> = Slot {
    generation: 77,
    value: Some(1),
    next: Some(2),
};

const fn id(index: u32, generation: u64) -> Id {
    Id { index, generation }
}

fn show_id(rt: &HostRuntime, found: Option<Id>) -> io::Result<()> {
    match found {
        Some(id) => println!(rt; "id {id}"),
        None => println!(rt; "none"),
    }
}

fn show_value(rt: &HostRuntime, what: &str, id: Id, value: Option<u64>) -> io::Result<()> {
    match value {
        Some(value) => println!(rt; "{what} {id}: {value}"),
        None => println!(rt; "{what} {id}: none"),
    }
}

fn next(rt: &HostRuntime, slab: &Slab<u64>) -> io::Result<()> {
    print!(rt; "next: ")?;
    show_id(rt, slab.next_id())
}

fn insert(rt: &HostRuntime, slab: &mut Slab<u64>, value: u64) -> io::Result<()> {
    print!(rt; "insert {value}: ")?;
    show_id(rt, slab.insert(value))
}

fn get(rt: &HostRuntime, slab: &Slab<u64>, id: Id) -> io::Result<()> {
    show_value(rt, "get", id, slab.get(id))
}

fn set(rt: &HostRuntime, slab: &mut Slab<u64>, id: Id, value: u64) -> io::Result<()> {
    let live = slab.set(id, value);
    println!(rt; "set {id} to {value}: {live}")
}

fn remove(rt: &HostRuntime, slab: &mut Slab<u64>, id: Id) -> io::Result<()> {
    show_value(rt, "remove", id, slab.remove(id))
}

fn at(rt: &HostRuntime, slab: &Slab<u64>, index: u32) -> io::Result<()> {
    print!(rt; "at {index}: ")?;
    show_id(rt, slab.id_at(index))
}

// Fills the slab, frees two slots, and asks for what is gone.
fn play_first(rt: &HostRuntime, slab: &mut Slab<u64>) -> io::Result<()> {
    get(rt, slab, id(0, 77))?;
    next(rt, slab)?;
    for value in [10, 20, 30, 40] {
        insert(rt, slab, value)?;
    }
    remove(rt, slab, id(1, 0))?;
    remove(rt, slab, id(0, 0))?;
    get(rt, slab, id(1, 0))?;
    remove(rt, slab, id(1, 0))
}

// The freed slots come back, in their next generation.
fn play_again(rt: &HostRuntime, slab: &mut Slab<u64>) -> io::Result<()> {
    insert(rt, slab, 50)?;
    next(rt, slab)?;
    insert(rt, slab, 60)?;
    get(rt, slab, id(0, 0))?;
    get(rt, slab, id(0, 1))?;
    set(rt, slab, id(2, 0), 35)?;
    set(rt, slab, id(2, 1), 36)?;
    get(rt, slab, id(2, 0))?;
    at(rt, slab, 1)?;
    at(rt, slab, 3)?;
    println!(rt; "{} live, {} slots used", slab.len(), slab.slots())
}

pub(crate) fn play_slab(rt: &HostRuntime) -> io::Result<()> {
    println!(rt; "== a slab of three slots")?;
    let mut slots = [OLD_MEMORY; 3];
    let mut slab = Slab::new(&mut slots);
    play_first(rt, &mut slab)?;
    play_again(rt, &mut slab)
}
