//! Refused files by place and cause, over hosts that give few bytes a call or fail at a listed one.
use crate::test_files::{ONE, host, read, refusal};
use crate::{ReadError, read_index};
use ciff_format::Cause;
use std::test::Fail;

#[test]
fn refused_at_the_header(rt: HostRuntime) -> Result<(), Fail> {
    let alloc = rt.alloc();
    let rows: [(&[u8], Cause); 12] = [
        (&[], Cause::CutShort),
        (&[0x80; 9], Cause::CutShort),
        (&[0x05, 0x08, 0x01], Cause::CutShort),
        // A length of 2^40, with nothing behind it.
        (&[0x80, 0x80, 0x80, 0x80, 0x80, 0x20], Cause::CutShort),
        (&[0xff; 10], Cause::BadLength),
        (
            &[0xff, 0xff, 0xff, 0xff, 0xff, 0xff, 0xff, 0xff, 0x7f],
            Cause::BadLength,
        ),
        (&[0x01, 0x0b], Cause::BadField),
        (&[0x02, 0x0a, 0x00], Cause::BadField),
        (&[0x03, 0x42, 0x01, 0xff], Cause::BadText),
        (&[0x04, 0x42, 0x01, 0xff, 0x0b], Cause::BadField),
        (
            &[
                0x0b, 0x10, 0xff, 0xff, 0xff, 0xff, 0xff, 0xff, 0xff, 0xff, 0xff, 0x01,
            ],
            Cause::BadCount,
        ),
        (&[0x06, 0x18, 0xff, 0xff, 0xff, 0xff, 0x0f], Cause::BadCount),
    ];
    for (file, cause) in rows.iter() {
        for most in [1, 4, 65536] {
            assert_eq!(rt; refusal(alloc, file, most)?, Some((0, *cause)));
        }
    }
    Ok(())
}

#[test]
fn a_message_that_ends_at_the_furthest_place(rt: HostRuntime) -> Result<(), Fail> {
    let alloc = rt.alloc();
    // Six bytes of length, and 2^41 - 6 bytes of message or one more.
    let near = [0xfa, 0xff, 0xff, 0xff, 0xff, 0x3f];
    let far = [0xfb, 0xff, 0xff, 0xff, 0xff, 0x3f];
    assert_eq!(rt; refusal(alloc, &near, 65536)?, Some((0, Cause::CutShort)));
    assert_eq!(rt; refusal(alloc, &far, 65536)?, Some((0, Cause::BadLength)));
    Ok(())
}

#[test]
fn cut_and_continued(rt: HostRuntime) -> Result<(), Fail> {
    let alloc = rt.alloc();
    for k in 0..25usize {
        let place = if k < 7 {
            0
        } else if k < 19 {
            7
        } else {
            19
        };
        for most in [1, 4, 65536] {
            let got = refusal(alloc, &ONE[..k], most)?;
            assert_eq!(rt; got, Some((place, Cause::CutShort)), "cut at {k}");
        }
    }
    for byte in [0x00, 0x05, 0xff] {
        let mut file = ONE.to_vec(alloc)?;
        file.push(byte)?;
        for most in [1, 25, 65536] {
            assert_eq!(rt; refusal(alloc, &file, most)?, Some((25, Cause::Trailing)));
        }
    }
    Ok(())
}

#[test]
fn failing_reads(rt: HostRuntime) -> Result<(), Fail> {
    let alloc = rt.alloc();
    // By four bytes 25 take seven calls, and an eighth finds the end.
    for call in 1..=9u64 {
        let mut host = host(alloc, &ONE, 4, call)?;
        let answer = read_index(alloc, &mut host, "in");
        if call == 9 {
            assert!(rt; answer.is_ok());
        } else {
            assert_eq!(rt; answer.err(), Some(ReadError::Fault), "read {call}");
        }
    }
    let mut host = host(alloc, &ONE, 4, 0)?;
    let answer = read_index(alloc, &mut host, "out");
    assert_eq!(rt; answer.err(), Some(ReadError::Fault));
    Ok(())
}

#[test]
fn a_refusal_ends_the_reading(rt: HostRuntime) -> Result<(), Fail> {
    let alloc = rt.alloc();
    // The first call gives a group, so the second isn't made.
    let mut host = host(alloc, &[0x01, 0x0b, 0x00, 0x00, 0x00], 4, 2)?;
    let answer = read_index(alloc, &mut host, "in");
    let expected = ReadError::Malformed {
        place: 0,
        cause: Cause::BadField,
    };
    assert_eq!(rt; answer.err(), Some(expected));
    assert!(rt; read(alloc, &[0x00], 1)?.is_ok());
    Ok(())
}
