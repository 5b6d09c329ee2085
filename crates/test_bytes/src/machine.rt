// The adapters over the machine.
use base_io::{
    Clock, FixedClock, FolderVault, Gate, MachineClock, OpenGate, Sink, Source, StdinSource,
    StdoutSink, Vault, VaultErr,
};
use std::fs;
use std::test::Fail;

#[test]
fn standard_input_is_read_to_its_end(rt: HostRuntime) {
    let bytes: &[u8] = b"abc";
    let mut source = StdinSource::new(bytes);
    let mut buf = [0u8; 2];
    for (want, first) in [(2, b'a'), (1, b'c'), (0, b'c')] {
        assert_eq!(rt; source.read(&mut buf), Ok(want));
        assert_eq!(rt; buf[0], first);
    }
}

#[test]
fn standard_output_takes_what_is_written(rt: HostRuntime) {
    let mut written = Vec::new(rt.alloc());
    let mut sink = StdoutSink::new(&mut written);
    assert_eq!(rt; sink.write(b"abc"), Ok(3));
    assert_eq!(rt; sink.write(b"d"), Ok(1));
    assert_eq!(rt; written.as_slice(), b"abcd".as_slice());
}

#[test]
fn a_folder_keeps_files(rt: HostRuntime) -> Result<(), Fail> {
    let name = "bytes.test";
    let mut vault = FolderVault::new(rt);
    assert_eq!(rt; vault.put(name, b"one"), Ok(()));
    assert_eq!(rt; vault.put(name, b"three"), Ok(()));
    assert_eq!(rt; vault.get(name, 5)?.as_slice(), b"three".as_slice());
    assert_eq!(rt; vault.get(name, 4).err(), Some(VaultErr::TooLong));
    fs::remove_file(&rt, name)?;
    assert_eq!(rt; vault.get(name, 5).err(), Some(VaultErr::Missing));
    Ok(())
}

#[test]
fn a_file_in_no_folder_is_not_put(rt: HostRuntime) {
    let mut vault = FolderVault::new(rt);
    assert_eq!(rt; vault.put("no/such/folder", b"one"), Err(VaultErr::Failed));
}

#[test]
fn a_put_leaves_what_others_write_beside_the_file(rt: HostRuntime) -> Result<(), Fail> {
    let name = "kept.test";
    let beside = ".kept.test.0.new";
    let mut vault = FolderVault::new(rt);
    assert_eq!(rt; vault.put(name, b"one"), Ok(()));

    // A part of the bytes of another writer, at work or cut off.
    fs::write(&rt, beside, b"tw")?;
    assert_eq!(rt; vault.get(name, 3)?.as_slice(), b"one".as_slice());
    assert_eq!(rt; vault.put(name, b"three"), Ok(()));
    assert_eq!(rt; vault.get(name, 5)?.as_slice(), b"three".as_slice());
    assert_eq!(rt; vault.get(beside, 2)?.as_slice(), b"tw".as_slice());
    fs::remove_file(&rt, beside)?;
    fs::remove_file(&rt, name)?;
    Ok(())
}

#[test]
fn a_put_that_fails_leaves_nothing_beside_the_file(rt: HostRuntime) -> Result<(), Fail> {
    let name = "folder.test";
    let mut vault = FolderVault::new(rt);
    fs::create_dir(&rt, name)?;
    assert_eq!(rt; vault.put(name, b"one"), Err(VaultErr::Failed));
    assert_eq!(rt;
        vault.get(".folder.test.0.new", 3).err(),
        Some(VaultErr::Missing)
    );
    fs::remove_dir(&rt, name)?;
    Ok(())
}

#[test]
fn clocks_tell_ticks_and_an_open_gate_lets_pass(rt: HostRuntime) {
    assert_eq!(rt; FixedClock { at: 7 }.now(), 7);
    // The first of January 2020, in ticks.
    assert!(rt; MachineClock::new(rt).now() > 15_778_368_000_000_000);
    OpenGate.pass(0, 0);
    OpenGate.inside(0);
}
