use super::{Player, play_text};
use records::ChunkRow;
use std::io;
use std::test::*;

fn stops_at(rt: &HostRuntime, text: &str, line: usize) -> io::Result<bool> {
    Ok(play_text(rt, text)? == Some(line))
}

#[test]
fn words_and_numbers_that_cannot_be_read(rt: HostRuntime) -> Result<(), Fail> {
    assert!(rt; stops_at(&rt, "\n# a row wants two numbers\nrow 1 2\nrow 1\n", 4)?);
    assert!(rt; stops_at(&rt, "sync now", 1)?);
    assert!(rt; stops_at(&rt, "file 4294967295\nfile 4294967296\n", 2)?);
    assert!(rt;
        stops_at(
            &rt,
            "row 0 18446744073709551615\nrow 0 18446744073709551616\n",
            2,
        )?
    );
    assert!(rt; stops_at(&rt, "file 3\nfile +3\n", 2)?);
    assert!(rt; stops_at(&rt, "sync\n-2147483648\n-2147483649\n", 3)?);
    assert!(rt; stops_at(&rt, "iovecs 0 70000\niovecs 0 70001\n", 2)?);
    Ok(())
}

#[test]
fn completions_of_nothing_cannot_be_read(rt: HostRuntime) -> Result<(), Fail> {
    assert!(rt; stops_at(&rt, "0", 1)?);
    assert!(rt; stops_at(&rt, "cancel", 1)?);
    assert!(rt; stops_at(&rt, "sync\n\n0\n\n0\n", 5)?);
    assert_eq!(rt; play_text(&rt, "sync\n  -4096  \n0\n")?, None);
    Ok(())
}

#[test]
fn rows_past_the_table_count_as_absent(rt: HostRuntime) -> Result<(), Fail> {
    let mut player = Player::new(rt.alloc())?;
    for _ in 0..70000 {
        player.add_row(ChunkRow {
            place: 4096,
            length: 1,
        })?;
    }
    assert!(rt; player.play_line(&rt, "row 4096 1").is_err());
    player.play_line(&rt, "send 8 rows 65534 2")?;
    assert!(rt; player.running.is_some());
    player.play_line(&rt, "send 8 rows 65535 2")?;
    assert!(rt; player.running.is_none());
    Ok(())
}
