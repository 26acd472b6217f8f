//! Hosts, sinks and stores that fail where it is listed.
use crate::reading::read_within;
use crate::{
    Host, MemoryFile, MemoryHost, MemorySink, ReadError, RealHost, SinkError, StoreFail, To,
    give_all,
};
use std::alloc::{AllocError, Global};
use std::io::ErrorKind;
use std::test::Fail;
use std::{fs, io};
use vx_store::Store;

#[test]
fn a_piece_is_given_in_parts_until_a_write_fails(rt: HostRuntime) -> Result<(), Fail> {
    let alloc = rt.alloc();
    let out = MemorySink::new(alloc, 8, vec![in alloc; 1]?);
    let err = MemorySink::new(alloc, 1, Vec::new(alloc));
    let mut host = MemoryHost::new(
        alloc,
        Vec::new(alloc),
        Vec::new(alloc),
        out,
        err,
        Vec::new(alloc),
    );
    let given = give_all(&mut host, To::Output, b"twelve bytes");
    assert_eq!(rt; given, Err(SinkError::Failed));
    assert_eq!(rt; host.taken(To::Output), b"twelve b".as_slice());
    assert_eq!(rt; host.sink_faults(To::Output), 1);
    assert_eq!(rt; give_all(&mut host, To::Output, b"ytes"), Ok(()));
    assert_eq!(rt; give_all(&mut host, To::Errors, b"one by one"), Ok(()));
    assert_eq!(rt; host.taken(To::Output), b"twelve bytes".as_slice());
    assert_eq!(rt; host.taken(To::Errors), b"one by one".as_slice());
    assert_eq!(rt; host.sink_faults(To::Errors), 0);
    Ok(())
}

#[test]
fn a_read_fails_where_it_is_listed_and_where_nothing_stands(rt: HostRuntime) -> Result<(), Fail> {
    let alloc = rt.alloc();
    let mut files = Vec::new(alloc);
    files.push(file(alloc, "plan", b"first")?)?;
    files.push(file(alloc, "plan", b"second")?)?;
    let mut host = MemoryHost::new(
        alloc,
        files,
        vec![in alloc; 1]?,
        sink(alloc),
        sink(alloc),
        Vec::new(alloc),
    );
    assert_eq!(rt; host.read("plan", 5)?.as_slice(), b"first".as_slice());
    assert!(rt; matches!(host.read("plan", 5), Err(ReadError::Failed)));
    assert_eq!(rt; host.read_faults(), 1);
    assert!(rt; matches!(host.read("plan", 4), Err(ReadError::TooBig { at: 4 })));
    assert_eq!(rt; host.read_faults(), 1);
    assert!(rt; matches!(host.read("absent", 4), Err(ReadError::Failed)));
    assert_eq!(rt; host.read_faults(), 2);
    assert_eq!(rt; host.read("plan", 6)?.as_slice(), b"first".as_slice());
    Ok(())
}

/// Whether the store of this job makes its first file.
fn makes_a_file(host: &mut MemoryHost, job: u32) -> Result<bool, AllocError> {
    let mut store = host.store(job)?;
    Ok(store.create().is_ok())
}

#[test]
fn the_store_of_a_job_fails_where_it_is_listed(rt: HostRuntime) -> Result<(), Fail> {
    let alloc = rt.alloc();
    let fails = vec![in alloc;
        StoreFail { job: 1, call: 0 },
        StoreFail { job: 2, call: 1 },
    ]?;
    let mut host = MemoryHost::new(
        alloc,
        Vec::new(alloc),
        Vec::new(alloc),
        sink(alloc),
        sink(alloc),
        fails,
    );
    for (job, makes) in [(0, true), (1, false), (2, true)] {
        assert_eq!(rt; makes_a_file(&mut host, job)?, makes, "of job {job}");
    }
    Ok(())
}

const FOLDER: &str = "vx_host_test";

const PATH: &str = "vx_host_test/plan";

#[test]
fn a_real_host_reads_files_and_writes_to_its_writers(rt: HostRuntime) -> Result<(), Fail> {
    let alloc = rt.alloc();
    let _ = fs::remove_dir_all(&rt, FOLDER);
    fs::create_dir(&rt, FOLDER)?;
    fs::write(&rt, PATH, b"first".as_slice())?;
    let mut host = RealHost::new(alloc, rt, Vec::new(alloc), Vec::new(alloc));
    assert_eq!(rt; host.read(PATH, 5)?.as_slice(), b"first".as_slice());
    assert_eq!(rt; host.read(PATH, u64::MAX)?.as_slice(), b"first".as_slice());
    assert!(rt; matches!(host.read(PATH, 4), Err(ReadError::TooBig { at: 4 })));
    assert_eq!(rt; host.read_faults(), 0);
    assert!(rt; matches!(host.read("vx_host_test/absent", 5), Err(ReadError::Failed)));
    assert!(rt; matches!(host.read(FOLDER, 5), Err(ReadError::Failed)));
    assert_eq!(rt; host.read_faults(), 2);
    fs::remove_dir_all(&rt, FOLDER)?;
    assert_eq!(rt; give_all(&mut host, To::Output, b"rows"), Ok(()));
    assert_eq!(rt; give_all(&mut host, To::Errors, b"none"), Ok(()));
    let mut store = host.store(3)?;
    assert!(rt; store.create().is_ok());
    assert_eq!(rt;
        fs::read(&rt, "vxspill/3-0.bin")?.as_slice(),
        b"".as_slice()
    );
    fs::remove_dir_all(&rt, "vxspill")?;
    let (out, err) = host.into_writers();
    assert_eq!(rt; out.as_slice(), b"rows".as_slice());
    assert_eq!(rt; err.as_slice(), b"none".as_slice());
    Ok(())
}

#[test]
fn an_interrupted_write_is_tried_again(rt: HostRuntime) -> Result<(), Fail> {
    let alloc = rt.alloc();
    let mut host = RealHost::new(alloc, rt, Tired { calls: 0 }, rt.stderr());
    assert_eq!(rt;
        give_all(&mut host, To::Output, b"ab"),
        Err(SinkError::Failed)
    );
    assert_eq!(rt; host.sink_faults(To::Output), 1);
    assert_eq!(rt;
        give_all(&mut host, To::Output, b"ab"),
        Err(SinkError::NoMemory)
    );
    assert_eq!(rt; host.sink_faults(To::Output), 1);
    assert_eq!(rt; host.sink_wants(To::Output), 1);
    assert_eq!(rt;
        give_all(&mut host, To::Output, b"ab"),
        Err(SinkError::Failed)
    );
    assert_eq!(rt; host.sink_faults(To::Output), 2);
    assert_eq!(rt; host.sink_wants(To::Output), 1);
    Ok(())
}

#[test]
fn a_reader_is_read_whole_or_fails(rt: HostRuntime) -> Result<(), Fail> {
    let alloc = rt.alloc();
    let reader = Halting {
        calls: 0,
        ends: true,
    };
    assert_eq!(rt;
        read_within(alloc, reader, 0, 5)?.as_slice(),
        b"abcde".as_slice()
    );
    let reader = Halting {
        calls: 0,
        ends: true,
    };
    assert!(rt;
        matches!(
            read_within(alloc, reader, 9, 4),
            Err(ReadError::TooBig { at: 4 })
        )
    );
    let reader = Halting {
        calls: 0,
        ends: false,
    };
    assert!(rt; matches!(read_within(alloc, reader, 9, 9), Err(ReadError::Failed)));
    Ok(())
}

// Is interrupted, takes a byte, takes none, has no memory, and is broken from then on.
#[derive(Drop)]
struct Tired {
    calls: u64,
}

impl io::Write for Tired {
    fn write(&mut self, buf: &[u8]) -> io::Result<usize> {
        self.calls = self.calls.saturating_add(1);
        match self.calls {
            1 => Err(io::Error::from(ErrorKind::Interrupted)),
            2 => Ok(buf.len().min(1)),
            3 => Ok(0),
            4 => Err(io::Error::from(ErrorKind::OutOfMemory)),
            _ => Err(io::Error::from(ErrorKind::BrokenPipe)),
        }
    }

    fn flush(&mut self) -> io::Result<()> {
        Ok(())
    }
}

// Gives a byte at a time, is interrupted between, and then ends or breaks.
#[derive(Drop)]
struct Halting {
    calls: u8,
    ends: bool,
}

impl io::Read for Halting {
    fn read(&mut self, buf: &mut [u8]) -> io::Result<usize> {
        self.calls = self.calls.saturating_add(1);
        if self.calls % 2 == 1 {
            return Err(io::Error::from(ErrorKind::Interrupted));
        }
        if self.calls <= 10 && !buf.is_empty() {
            buf[0] = b'a' + (self.calls / 2 - 1);
            return Ok(1);
        }
        if self.ends {
            Ok(0)
        } else {
            Err(io::Error::from(ErrorKind::ConnectionReset))
        }
    }
}

fn file(alloc: Global, name: &str, bytes: &[u8]) -> Result<MemoryFile, AllocError> {
    Ok(MemoryFile {
        name: String::from_str(alloc, name)?,
        bytes: Vec::from_slice(alloc, bytes)?,
    })
}

fn sink(alloc: Global) -> MemorySink {
    MemorySink::new(alloc, 1, Vec::new(alloc))
}
