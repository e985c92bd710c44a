//! Rows of files that are cut, and of files with bytes behind their end.
use rgb_runs::{ONE, SIX, bytes_of, is_refused};
use std::test::Fail;
use std::thread::Threads;

/// The places at which the messages of `ONE` and of `SIX` start.
const STARTS_OF_ONE: [usize; 3] = [0, 7, 19];

const STARTS_OF_SIX: [usize; 9] = [0, 7, 31, 57, 64, 73, 82, 91, 100];

// The first length to which the file is cut and isn't refused at the start of the message that is cut.
fn first_other_cut<R: Threads + Sync + AllocGlobal>(
    rt: &R,
    file: &[u8],
    starts: &[usize],
) -> Result<Option<usize>, Fail> {
    for len in 0..file.len() {
        let mut place = 0;
        for start in starts {
            if *start <= len {
                place = *start;
            }
        }
        let line = format!(in rt.alloc(); "malformed {place} CutShort\n")?;
        if !is_refused(rt, "copy in out", &file[..len], &line)? {
            return Ok(Some(len));
        }
    }
    Ok(None)
}

#[test]
fn each_cut(rt: HostRuntime) -> Result<(), Fail> {
    let one = bytes_of(rt.alloc(), ONE)?;
    assert_eq!(rt; first_other_cut(&rt, &one, &STARTS_OF_ONE)?, None);
    let six = bytes_of(rt.alloc(), SIX)?;
    assert_eq!(rt; first_other_cut(&rt, &six, &STARTS_OF_SIX)?, None);
    Ok(())
}

#[test]
fn each_byte_behind_the_end(rt: HostRuntime) -> Result<(), Fail> {
    for byte in 0..=255 {
        let mut longer = bytes_of(rt.alloc(), ONE)?;
        longer.push(byte)?;
        assert!(rt;
            is_refused(&rt, "copy in out", &longer, "malformed 25 Trailing\n")?,
            "{byte}"
        );
    }
    Ok(())
}
