//! Lists of waiter ids, of iovecs and of deferred work.
use records::{Deferred, Id, Iovec, WaiterId};
use std::io;
use tables::LentList;

const FIRST: WaiterId = WaiterId(Id {
    index: 7,
    generation: 0,
});

const SECOND: WaiterId = WaiterId(Id {
    index: 7,
    generation: 1,
});

const PIECE: Iovec = Iovec {
    base: 4096,
    length: 512,
};

const REST: Iovec = Iovec {
    base: 8192,
    length: 100,
};

fn show_sizes<X: Copy>(rt: &HostRuntime, what: &str, list: &LentList<X>) -> io::Result<()> {
    println!(rt; "{what}: {} held, {} free", list.len(), list.room())
}

fn show_place(rt: &HostRuntime, what: &str, place: Option<usize>) -> io::Result<()> {
    match place {
        Some(place) => println!(rt; "{what}: at {place}"),
        None => println!(rt; "{what}: nowhere"),
    }
}

fn play_ids(rt: &HostRuntime) -> io::Result<()> {
    println!(rt; "== waiter ids in two places")?;
    let mut places = [FIRST; 2];
    let mut list = LentList::new(&mut places);
    show_place(rt, "find 7 0", list.find(FIRST))?;
    println!(rt; "append 7 0: {}", list.append(FIRST).is_ok())?;
    println!(rt; "append 7 1: {}", list.append(SECOND).is_ok())?;
    println!(rt; "append 7 0: {}", list.append(FIRST).is_ok())?;
    show_sizes(rt, "then", &list)?;
    show_place(rt, "find 7 1", list.find(SECOND))?;
    list.clear();
    show_sizes(rt, "clear", &list)?;
    show_place(rt, "find 7 1", list.find(SECOND))
}

fn play_iovecs(rt: &HostRuntime) -> io::Result<()> {
    println!(rt; "== iovecs in two places")?;
    let mut places = [PIECE; 2];
    let mut list = LentList::new(&mut places);
    println!(rt;
        "write three: {}",
        list.write(&[PIECE, REST, PIECE]).is_ok()
    )?;
    show_sizes(rt, "then", &list)?;
    println!(rt; "write two: {}", list.write(&[PIECE, REST]).is_ok())?;
    show_sizes(rt, "then", &list)?;
    show_place(rt, "find 8192 100", list.find(REST))?;
    match list.get(1) {
        Some(iovec) => println!(rt; "get 1: {iovec}"),
        None => println!(rt; "get 1: none"),
    }
}

fn play_deferred(rt: &HostRuntime) -> io::Result<()> {
    println!(rt; "== deferred work in one place")?;
    let mut places = [Deferred::Drop { waker: 0 }; 1];
    let mut list = LentList::new(&mut places);
    let woken = list.append(Deferred::Wake { waker: 5 }).is_ok();
    println!(rt; "append wake 5: {woken}")?;
    let dropped = list.append(Deferred::Drop { waker: 6 }).is_ok();
    println!(rt; "append drop 6: {dropped}")?;
    show_sizes(rt, "then", &list)
}

pub(crate) fn play_lists(rt: &HostRuntime) -> io::Result<()> {
    play_ids(rt)?;
    play_iovecs(rt)?;
    play_deferred(rt)
}
