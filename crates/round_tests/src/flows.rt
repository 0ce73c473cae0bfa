//! Shelves and sinks of the machine.
ghost use Rattle.std.specs.Prelude.{◌<◌};

use crate::comparing::equal;
use flow_io::{RealShelf, RealSink, Shelf, ShelfFault, Sink, put_all};
use std::alloc::{Allocator, Global};
use std::fmt::Display;
use std::fs::{self, Metadata, OpenFile, OpenOptions};
use std::io::{self, ErrorKind, Read, Seek, SeekFrom, Write};
use std::process::Abort;
use std::rt::Files;
use std::sync::atomic::{AtomicU64, Ordering};

// Why a load of so many bytes at most gave no file.
fn told(fault: &ShelfFault, most: usize) -> &'static str
    requires { most < usize.MAX }
{
    match fault {
        ShelfFault::Failed => "failed",
        ShelfFault::TooLong { got } if *got == most + 1 => "too long",
        ShelfFault::TooLong { .. } => "longer",
        ShelfFault::Memory(_) => "memory",
    }
}

// Asserts that the file, of which so many bytes are read at most, gives these bytes or this fault.
fn tell_load<S: Shelf>(
    rt: &impl Abort,
    shelf: &mut S,
    alloc: Global,
    name: &str,
    most: usize,
    want: Result<&[u8], &str>,
)
    requires { most < usize.MAX }
{
    match shelf.load(alloc, name, most) {
        Ok(bytes) => equal(rt, &Ok(bytes.as_slice()), &want, name),
        Err(fault) => equal(rt, &Err(told(&fault, most)), &want, name),
    }
}

const NAME: &str = "flow_io_test_file";

// Twenty bytes.
const BYTES: &[u8] = b"xxxxxxxxxxxxxxxxxxxx";

#[test]
fn files_of_the_machine_are_read_whole(rt: HostRuntime) {
    fs::write(&rt, NAME, BYTES).expect(&rt, "a file");
    let alloc = rt.alloc();
    let mut shelf = RealShelf::new(&rt);
    tell_load(&rt, &mut shelf, alloc, NAME, 20, Ok(BYTES));
    tell_load(&rt, &mut shelf, alloc, NAME, 19, Err("too long"));
    fs::remove_file(&rt, NAME).expect(&rt, "no file");
    tell_load(&rt, &mut shelf, alloc, NAME, 20, Err("failed"));
}

#[test]
fn standard_output_takes_all_bytes(rt: HostRuntime) {
    let mut sink = RealSink::new(rt);
    equal(&rt, &put_all(&mut sink, b"put\n"), &Ok(()), "put");
    equal(&rt, &sink.finish(), &Ok(()), "a finish");
}

// An output that takes one byte a call.
#[derive(Drop)]
struct Slow {
    calls: AtomicU64,
}

impl Print for Slow {
    fn print<D: Display + Drop>(&self, _value: D) -> io::Result<()> {
        Err(unsupported())
    }

    fn println<D: Display + Drop>(&self, _value: D) -> io::Result<()> {
        Err(unsupported())
    }

    fn write_all(&self, _bytes: &[u8]) -> io::Result<()> {
        Err(unsupported())
    }

    fn write_some(&self, bytes: &[u8]) -> io::Result<usize> {
        self.calls.fetch_add(1, Ordering::SeqCst);
        Ok(bytes.len().min(1))
    }
}

#[test]
fn a_write_that_takes_one_byte_is_told_as_one(rt: HostRuntime) {
    let output = Slow {
        calls: AtomicU64::new(0),
    };
    let mut sink = RealSink::new(&output);
    equal(&rt, &sink.put(b"put"), &Ok(1), "a put");
    equal(&rt, &put_all(&mut sink, b"put"), &Ok(()), "put");
    equal(&rt, &output.calls.load(Ordering::SeqCst), &4, "calls");
}

// Reads so many bytes, one a call, and then fails.
#[derive(Drop)]
struct Broken {
    left: u8,
}

fn unsupported() -> io::Error {
    io::Error::from(ErrorKind::Unsupported)
}

impl Read for Broken {
    fn read(&mut self, buf: &mut [u8]) -> io::Result<usize> {
        if self.left == 0 {
            return Err(io::Error::from(ErrorKind::BrokenPipe));
        }
        if buf.is_empty() {
            return Ok(0);
        }
        self.left -= 1;
        buf[0] = b'x';
        Ok(1)
    }
}

impl Write for Broken {
    fn write(&mut self, _buf: &[u8]) -> io::Result<usize> {
        Err(unsupported())
    }

    fn flush(&mut self) -> io::Result<()> {
        Err(unsupported())
    }
}

impl Seek for Broken {
    fn seek(&mut self, _to: SeekFrom) -> io::Result<u64> {
        Err(unsupported())
    }
}

impl OpenFile for Broken {
    fn metadata(&self) -> io::Result<Metadata> {
        Err(unsupported())
    }

    fn set_len(&self, _size: u64) -> io::Result<()> {
        Err(unsupported())
    }

    fn sync_all(&self) -> io::Result<()> {
        Err(unsupported())
    }

    fn sync_data(&self) -> io::Result<()> {
        Err(unsupported())
    }
}

// A machine each of whose files fails after three bytes.
#[derive(Drop)]
struct BrokenFiles;

impl Files for BrokenFiles {
    type File = Broken;

    type Dir = Broken;

    fn open_file(&self, _how: &OpenOptions, _path: &str) -> io::Result<Broken> {
        Ok(Broken { left: 3 })
    }

    fn open_dir(&self, _path: &str) -> io::Result<Broken> {
        Err(unsupported())
    }

    fn metadata(&self, _path: &str) -> io::Result<Metadata> {
        Err(unsupported())
    }

    fn symlink_metadata(&self, _path: &str) -> io::Result<Metadata> {
        Err(unsupported())
    }

    fn copy(&self, _from: &str, _to: &str) -> io::Result<u64> {
        Err(unsupported())
    }

    fn rename(&self, _from: &str, _to: &str) -> io::Result<()> {
        Err(unsupported())
    }

    fn remove_file(&self, _path: &str) -> io::Result<()> {
        Err(unsupported())
    }

    fn create_dir(&self, _path: &str) -> io::Result<()> {
        Err(unsupported())
    }

    fn remove_dir(&self, _path: &str) -> io::Result<()> {
        Err(unsupported())
    }

    fn remove_dir_all<B: Allocator>(&self, _alloc: B, _path: &str) -> io::Result<()> {
        Err(unsupported())
    }
}

#[test]
fn a_read_that_fails_in_mid_stream_is_no_file(rt: HostRuntime) {
    let mut shelf = RealShelf::new(BrokenFiles);
    tell_load(&rt, &mut shelf, rt.alloc(), "f", 9, Err("failed"));
    tell_load(&rt, &mut shelf, rt.alloc(), "f", 2, Err("too long"));
}
