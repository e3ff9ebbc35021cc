//! A line of a text as the item that it asks to play.
use records::{Buffer, Cache, ChunkRow, FileId, Id, Source, WaiterId, WriteMode};
use request::Wanted;
use std::alloc::{AllocError, Global};
use std::str::FromStr;

/// The texts know one open file.
const THE_FILE: FileId = FileId(Id {
    index: 0,
    generation: 0,
});

#[derive(Clone, Copy)]
pub(crate) enum Item {
    Row(ChunkRow),
    File { descriptor: u32 },
    Waiter(WaiterId),
    Iovecs { place: u64, count: u32 },
    Begin(Wanted),
    Cancel,
    Completion { result: i32 },
}

// No `FromStr`: of the types of other crates it would have to stand there, with words that are this program's; and the
// words of a whole line need a heap, which it is not given.

// The plus that parse would take is not in the notation.
fn parse_number<T: FromStr>(word: &str) -> Option<T>
where
    T::Err: Drop,
{
    if word.starts_with('+') {
        return None;
    }
    word.parse::<T>().ok()
}

fn parse_pair(a: &str, b: &str) -> Option<(u64, u64)> {
    Some((parse_number(a)?, parse_number(b)?))
}

fn parse_source(kind: &str, a: &str, b: &str) -> Option<Source> {
    match kind {
        "single" => {
            let (place, length) = parse_pair(a, b)?;
            Some(Source::Single { place, length })
        }
        "rows" => Some(Source::Rows {
            first: parse_number(a)?,
            count: parse_number(b)?,
        }),
        _ => None,
    }
}

fn parse_buffer(place: &str, capacity: &str, length: &str) -> Option<Buffer> {
    Some(Buffer {
        place: parse_number(place)?,
        capacity: parse_number(capacity)?,
        length: parse_number(length)?,
    })
}

fn parse_exactness(word: &str) -> Option<bool> {
    match word {
        "exact" => Some(true),
        "any" => Some(false),
        _ => None,
    }
}

fn parse_cache(word: &str) -> Option<Cache> {
    match word {
        "hint" => Some(Cache::Disabled),
        "plain" => Some(Cache::Enabled),
        _ => None,
    }
}

fn parse_mode(word: &str) -> Option<WriteMode> {
    match word {
        "writing" => Some(WriteMode::Writing),
        "writing-sync" => Some(WriteMode::WritingSync),
        "writing-before-sync" => Some(WriteMode::WritingBeforeSync),
        _ => None,
    }
}

fn parse_row(words: &[&str]) -> Option<Item> {
    let [place, length] = words else {
        return None;
    };
    let (place, length) = parse_pair(place, length)?;
    Some(Item::Row(ChunkRow { place, length }))
}

fn parse_file(words: &[&str]) -> Option<Item> {
    let [descriptor] = words else {
        return None;
    };
    Some(Item::File {
        descriptor: parse_number(descriptor)?,
    })
}

fn parse_waiter(words: &[&str]) -> Option<Item> {
    let [index, generation] = words else {
        return None;
    };
    Some(Item::Waiter(WaiterId(Id {
        index: parse_number(index)?,
        generation: parse_number(generation)?,
    })))
}

fn parse_iovecs(words: &[&str]) -> Option<Item> {
    let [place, count] = words else {
        return None;
    };
    Some(Item::Iovecs {
        place: parse_number(place)?,
        count: parse_number(count)?,
    })
}

fn parse_send(words: &[&str]) -> Option<Wanted> {
    let [descriptor, kind, a, b] = words else {
        return None;
    };
    Some(Wanted::Send {
        descriptor: parse_number(descriptor)?,
        source: parse_source(kind, a, b)?,
    })
}

fn parse_recv(words: &[&str]) -> Option<Wanted> {
    let [descriptor, place, capacity, length, exact, target] = words else {
        return None;
    };
    Some(Wanted::Recv {
        descriptor: parse_number(descriptor)?,
        buffer: parse_buffer(place, capacity, length)?,
        length: parse_number(target)?,
        exact: parse_exactness(exact)?,
    })
}

fn parse_read(words: &[&str]) -> Option<Wanted> {
    let [offset, place, capacity, length, hint] = words else {
        return None;
    };
    Some(Wanted::ReadAt {
        file: THE_FILE,
        offset: parse_number(offset)?,
        buffer: parse_buffer(place, capacity, length)?,
        cache: parse_cache(hint)?,
    })
}

fn parse_direct(words: &[&str]) -> Option<Wanted> {
    let [descriptor, offset, length, place, capacity] = words else {
        return None;
    };
    let descriptor = parse_number(descriptor)?;
    let (offset, length) = parse_pair(offset, length)?;
    let (place, capacity) = parse_pair(place, capacity)?;
    Some(Wanted::DirectReadAt {
        file: THE_FILE,
        descriptor,
        offset,
        length,
        place,
        capacity,
    })
}

fn parse_write(words: &[&str]) -> Option<Wanted> {
    let [offset, kind, a, b, sync, hint] = words else {
        return None;
    };
    Some(Wanted::WriteAt {
        file: THE_FILE,
        offset: parse_number(offset)?,
        source: parse_source(kind, a, b)?,
        mode: parse_mode(sync)?,
        cache: parse_cache(hint)?,
    })
}

fn parse_item(words: &[&str]) -> Option<Item> {
    let [first, rest @ ..] = words else {
        return None;
    };
    match *first {
        "row" => parse_row(rest),
        "file" => parse_file(rest),
        "waiter" => parse_waiter(rest),
        "iovecs" => parse_iovecs(rest),
        "send" => Some(Item::Begin(parse_send(rest)?)),
        "recv" => Some(Item::Begin(parse_recv(rest)?)),
        "read" => Some(Item::Begin(parse_read(rest)?)),
        "direct" => Some(Item::Begin(parse_direct(rest)?)),
        "write" => Some(Item::Begin(parse_write(rest)?)),
        _ if !rest.is_empty() => None,
        "sync" => Some(Item::Begin(Wanted::Sync { file: THE_FILE })),
        "cancel" => Some(Item::Cancel),
        result => Some(Item::Completion {
            result: parse_number(result)?,
        }),
    }
}

pub(crate) fn is_skipped(line: &str) -> bool {
    line.is_empty() || line.starts_with('#')
}

/// The item of a line; none where it cannot be read.
pub(crate) fn read_line(heap: Global, line: &str) -> Result<Option<Item>, AllocError> {
    let words: Vec<&str> = line
        .split(' ')
        .filter(|word| !word.is_empty())
        .collect(heap)?;
    Ok(parse_item(words.as_slice()))
}
