//! What the real host does with files of the system.
use crate::{Failed, Host, RealHost, write_all};
use std::test::Fail;
use std::{env, fs, process};

const TEN: &[u8] = b"0123456789";

/// A name of its own in the folder for passing files.
fn path_of(rt: HostRuntime, what: &str) -> Result<String, Fail> {
    let folder = env::temp_dir(&rt)?;
    Ok(format!(in rt.alloc();
        "{}/rgb_host_{}_{what}",
        folder.as_str(),
        process::id(rt.process())
    )?)
}

/// Creates the file, writes all ten bytes, and reads a first piece back.
fn write_and_read<H: Host>(host: &mut H, name: &str, buf: &mut [u8]) -> Result<usize, Failed> {
    host.create(name)?;
    write_all(host, name, TEN)?;
    host.read_at(name, 0, buf)
}

#[test]
fn works_on_a_real_file(rt: HostRuntime) -> Result<(), Fail> {
    let path = path_of(rt, "one")?;
    let mut host = RealHost::new(rt);
    let mut buf = [0u8; 7];
    assert!(rt; host.read_at(path.as_str(), 0, &mut buf).is_err());
    assert_eq!(rt; write_and_read(&mut host, path.as_str(), &mut buf), Ok(7));
    assert_eq!(rt; &buf, b"0123456");
    assert_eq!(rt; host.read_at(path.as_str(), 9, &mut buf), Ok(1));
    assert_eq!(rt; buf[0], b'9');
    assert_eq!(rt; host.read_at(path.as_str(), 10, &mut buf), Ok(0));
    fs::remove_file(&rt, path.as_str())?;
    Ok(())
}

#[test]
fn works_on_two_real_files(rt: HostRuntime) -> Result<(), Fail> {
    let first = path_of(rt, "first")?;
    let second = path_of(rt, "second")?;
    let mut host = RealHost::new(rt);
    let mut buf = [0u8; 7];
    host.create(first.as_str())?;
    host.create(second.as_str())?;
    host.append(second.as_str(), b"second")?;
    // another file was written since this one was created
    host.append(first.as_str(), b"one")?;
    host.append(second.as_str(), b"!")?;
    assert_eq!(rt; host.read_at(first.as_str(), 0, &mut buf), Ok(3));
    assert_eq!(rt; &buf[..3], b"one".as_slice());
    assert_eq!(rt; host.read_at(second.as_str(), 0, &mut buf), Ok(7));
    assert_eq!(rt; &buf, b"second!");
    // a creation over a longer file leaves nothing of it
    host.create(second.as_str())?;
    host.append(second.as_str(), b"2")?;
    assert_eq!(rt; host.read_at(second.as_str(), 0, &mut buf), Ok(1));
    assert_eq!(rt; host.read_at(first.as_str(), 0, &mut buf), Ok(3));
    fs::remove_file(&rt, first.as_str())?;
    fs::remove_file(&rt, second.as_str())?;
    Ok(())
}

#[test]
fn fails_on_a_folder(rt: HostRuntime) -> Result<(), Fail> {
    let folder = env::temp_dir(&rt)?;
    let mut host = RealHost::new(rt);
    let mut buf = [0u8; 7];
    assert_eq!(rt; host.read_at(folder.as_str(), 0, &mut buf), Err(Failed));
    assert_eq!(rt; host.create(folder.as_str()), Err(Failed));
    assert_eq!(rt; host.append(folder.as_str(), b"one"), Err(Failed));
    Ok(())
}
