ghost use Rattle.std.specs.Prelude.{◌≡◌, IfOk};

use ib_base::{Host, HostErr, MemHost, RealHost, read_beginning, write_whole};
use std::alloc::{AllocError, Global};
use std::io::{ErrorKind, Read, Write};
use std::{fs, io};

fn first_wrong(right: &[bool]) -> Option<usize> {
    for (i, is_right) in right.iter().enumerate() {
        if !*is_right {
            return Some(i);
        }
    }
    None
}

fn reads<H: Host>(host: &mut H, alloc: Global, name: &str, limit: usize, want: &[u8]) -> bool {
    match host.read_file(alloc, name, limit) {
        Ok(bytes) => bytes.as_slice() == want,
        Err(_) => false,
    }
}

fn wrong_in_memory(alloc: Global) -> Result<Option<usize>, AllocError> {
    let mut host = MemHost::new(alloc, b"in")?;
    host.add_file("a", b"first")?;
    host.add_file("a", b"second")?;
    host.fail_at(2, 1)?;
    let right = [
        reads(&mut host, alloc, "a", 2, b"sec"),
        host.put(b"34") == Err(HostErr::Failed),
        host.write_file("b", b"new") == Ok(()),
        reads(&mut host, alloc, "b", 9, b"new"),
        host.output() == b"3".as_slice(),
    ];
    Ok(first_wrong(&right))
}

#[test]
fn memory_host_keeps_what_is_written(rt: HostRuntime) {
    assert_eq!(rt; wrong_in_memory(rt.alloc()), Ok(None));
}

fn wrong_over_the_system(rt: &HostRuntime) -> io::Result<Option<usize>> {
    let alloc = rt.alloc();
    let name = "ib_base_real_host.tmp";
    let mut host = RealHost::new(rt.clone()?, alloc)?;
    let read = [
        host.write_file(name, b"content") == Ok(()),
        reads(&mut host, alloc, name, 7, b"content"),
        reads(&mut host, alloc, name, 3, b"cont"),
    ];
    fs::remove_file(rt, name)?;
    let right = [
        first_wrong(&read).is_none(),
        !reads(&mut host, alloc, name, 7, b"content"),
        host.put(b"put\n") == Ok(()),
        host.note(b"note\n") == Ok(()),
        host.note(b"\xff") == Err(HostErr::Failed),
    ];
    Ok(first_wrong(&right))
}

#[test]
fn real_host_reads_what_it_wrote(rt: HostRuntime) {
    assert!(rt; matches!(wrong_over_the_system(&rt), Ok(None)));
}

/// Reads and writes one byte at a time, is interrupted before each, and fails after two.
#[derive(Drop)]
struct Broken {
    turns: u8,
}

impl Broken {
    fn turn(&mut self) -> io::Result<usize>
        ensures { IfOk result (λ n. n ≡ 1) }
    {
        self.turns = self.turns.saturating_add(1);
        match self.turns {
            2 | 4 => Ok(1),
            1 | 3 => Err(io::Error::from(ErrorKind::Interrupted)),
            _ => Err(io::Error::from(ErrorKind::Other)),
        }
    }
}

impl Read for Broken {
    fn read(&mut self, buf: &mut [u8]) -> io::Result<usize> {
        if buf.is_empty() { Ok(0) } else { self.turn() }
    }
}

impl Write for Broken {
    fn write(&mut self, buf: &[u8]) -> io::Result<usize> {
        if buf.is_empty() { Ok(0) } else { self.turn() }
    }

    fn flush(&mut self) -> io::Result<()> {
        Ok(())
    }
}

fn is_read(alloc: Global, limit: usize) -> bool {
    let mut piece = [0u8; 4];
    read_beginning(alloc, &mut Broken { turns: 0 }, limit, &mut piece).is_ok()
}

fn is_written(bytes: &[u8]) -> bool {
    write_whole(&mut Broken { turns: 0 }, bytes).is_ok()
}

#[test]
fn streams_go_on_after_an_interruption_and_not_after_a_failure(rt: HostRuntime) {
    let right = [
        is_read(rt.alloc(), 0),
        is_read(rt.alloc(), 1),
        !is_read(rt.alloc(), 2),
        is_written(b"a"),
        is_written(b"ab"),
        !is_written(b"abc"),
    ];
    assert_eq!(rt; first_wrong(&right), None);
}
