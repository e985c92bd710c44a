//! What the calls answer over small files, one listed failure at a time.
ghost use Rattle.std.specs.Prelude.{◌≤◌};

use crate::{Failed, FileMap, Host, MemoryHost, Numbers, print_all, warn_all, write_all};
use std::alloc::{AllocError, Global};
use std::collections::BTreeMap;
use std::test::Fail;

const TEN: &[u8] = b"0123456789";

/// A host with one file `ten`.
fn host_with_ten(
    alloc: Global,
    most: u32,
    failing_reads: &[u64],
    failing_writes: &[u64],
) -> Result<MemoryHost, AllocError>
    requires { 1 ≤ most }
{
    let mut files = BTreeMap::new(alloc);
    files.insert(
        String::from_str(alloc, "ten")?,
        Vec::from_slice(alloc, TEN)?,
    )?;
    let reads = Numbers::of(Vec::from_slice(alloc, failing_reads)?);
    let writes = Numbers::of(Vec::from_slice(alloc, failing_writes)?);
    Ok(MemoryHost::new(alloc, FileMap::of(files), reads, writes, most))
}

#[test]
fn reads_a_piece(rt: HostRuntime) -> Result<(), Fail> {
    let rows = [
        (1, 0, "0"),
        (1, 9, "9"),
        (1, 10, ""),
        (1, 11, ""),
        (4, 0, "0123"),
        (4, 9, "9"),
        (4, 10, ""),
        (4, 11, ""),
        (65536, 0, "0123456"),
        (65536, 9, "9"),
        (65536, 10, ""),
        (65536, 11, ""),
    ];
    for (most, at, want) in rows {
        assert!(rt; most >= 1);
        let mut host = host_with_ten(rt.alloc(), most, &[], &[])?;
        let mut buf = [0u8; 7];
        let given = host.read_at("ten", at, &mut buf)?;
        assert_eq!(rt; &buf[..given], want.as_bytes(), "most {most}, from {at}");
    }
    Ok(())
}

#[test]
fn fails_listed_reads(rt: HostRuntime) -> Result<(), Fail> {
    let mut host = host_with_ten(rt.alloc(), 4, &[2, 3], &[])?;
    let rows = [
        ("ten", Ok(4), 0),
        ("ten", Err(Failed), 1),
        ("eleven", Err(Failed), 1),
        ("ten", Ok(4), 1),
        ("eleven", Err(Failed), 1),
    ];
    for (name, want, faults) in rows {
        let mut buf = [0u8; 7];
        assert_eq!(rt; host.read_at(name, 0, &mut buf), want, "{name}");
        assert_eq!(rt; host.faults(), [faults, 0, 0], "{name}");
    }
    Ok(())
}

/// Creates, appends, prints and warns, and says which calls failed.
fn failed_calls(host: &mut MemoryHost) -> [bool; 4] {
    let (create, append) = match host.create("out") {
        Ok(()) => (false, host.append("out", TEN).is_err()),
        Err(Failed) => (true, true),
    };
    [
        create,
        append,
        host.print(TEN).is_err(),
        host.warn(TEN).is_err(),
    ]
}

#[test]
fn fails_listed_writes(rt: HostRuntime) -> Result<(), Fail> {
    let rows = [
        (1, [true, true, false, false], 4, 4, [0, 1, 0]),
        (2, [false, true, false, false], 4, 4, [0, 1, 0]),
        (3, [false, false, true, false], 0, 4, [0, 1, 0]),
        (4, [false, false, false, true], 4, 0, [0, 0, 1]),
        (5, [false, false, false, false], 4, 4, [0, 0, 0]),
    ];
    for (failing, failed, printed, warned, faults) in rows {
        let mut host = host_with_ten(rt.alloc(), 4, &[], &[failing])?;
        assert_eq!(rt; failed_calls(&mut host), failed, "call {failing}");
        assert_eq!(rt; host.printed().len(), printed, "call {failing}");
        assert_eq!(rt; host.warned().len(), warned, "call {failing}");
        assert_eq!(rt; host.faults(), faults, "call {failing}");
    }
    Ok(())
}

#[test]
fn writes_whole_pieces(rt: HostRuntime) -> Result<(), Fail> {
    for most in [1, 4, 65536] {
        assert!(rt; most >= 1);
        let mut host = host_with_ten(rt.alloc(), most, &[], &[])?;
        host.create("out")?;
        write_all(&mut host, "out", TEN)?;
        print_all(&mut host, TEN)?;
        warn_all(&mut host, TEN)?;
        assert_eq!(rt; host.file("out"), Some(TEN), "most {most}");
        assert_eq!(rt; host.printed(), TEN, "most {most}");
        assert_eq!(rt; host.warned(), TEN, "most {most}");
    }
    Ok(())
}

#[test]
fn leaves_a_front_after_a_failure(rt: HostRuntime) -> Result<(), Fail> {
    let mut host = host_with_ten(rt.alloc(), 4, &[], &[3, 5, 8])?;
    host.create("out")?;
    assert_eq!(rt; write_all(&mut host, "out", TEN), Err(Failed));
    assert_eq!(rt; host.file("out"), Some(&TEN[..4]));
    assert_eq!(rt; print_all(&mut host, TEN), Err(Failed));
    assert_eq!(rt; host.printed(), &TEN[..4]);
    assert_eq!(rt; warn_all(&mut host, TEN), Err(Failed));
    assert_eq!(rt; host.warned(), &TEN[..8]);
    assert_eq!(rt; host.faults(), [0, 2, 1]);
    Ok(())
}

/// So many bytes, as a piece that is longer than any buffer.
fn long_piece(alloc: Global) -> Result<Vec<u8>, AllocError> {
    let mut piece = Vec::with_capacity(alloc, 100_000)?;
    for byte in TEN.iter().cycle().take(100_000) {
        piece.push(*byte)?;
    }
    Ok(piece)
}

#[test]
fn writes_a_long_piece(rt: HostRuntime) -> Result<(), Fail> {
    let piece = long_piece(rt.alloc())?;
    for most in [4096, 65536, 1_000_000] {
        assert!(rt; most >= 1);
        let mut host = host_with_ten(rt.alloc(), most, &[], &[])?;
        host.create("out")?;
        write_all(&mut host, "out", &piece)?;
        print_all(&mut host, &piece)?;
        assert!(rt; host.file("out") == Some(piece.as_slice()), "most {most}");
        assert!(rt; host.printed() == piece.as_slice(), "most {most}");
    }
    Ok(())
}
