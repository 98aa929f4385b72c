//! Readings and writings, whole and with faults in the middle, and one caller that is generic in both ends.
ghost use Rattle.std.specs.Prelude.{◌≡◌, ◌≢◌, List, ℕ};
ghost use Rattle.rt_fault.specs.Faults.{HasRisen};
ghost use Rattle.rt_fault.specs.Held.{Extends};
ghost use Rattle.rt_fault.specs.Reading.{TakesAll, TakesOneMoreThan};

use rt_fault::{
    MemSink, MemSource, ReadStop, Sink, Source, Status, StdSink, StdSource, SureSink, SureSource,
    put_all, read_all,
};
use std::alloc::Global;
use std::io;
use std::io::{Read, Write};
use std::test::Fail;

/// Writes all that the source has left, at most 8 bytes.
fn pass_on<S: Source, K: Sink>(alloc: Global, src: &mut S, out: &mut K) -> Status
    ensures ok { result ≡ Status.Ok → (bytes : List ℕ)
        × TakesAll (S.left src.old) (S.left src.new) bytes
        × Extends (K.held out.old) (K.held out.new) bytes }
    ensures read_fault { result ≡ Status.ReadFault →
        HasRisen (S.faults src.old) (S.faults src.new) }
    ensures too_long { result ≡ Status.TooLong →
        TakesOneMoreThan 8 (S.left src.old) (S.left src.new) }
    ensures write_fault { result ≡ Status.WriteFault →
        HasRisen (K.faults out.old) (K.faults out.new) }
{
    match read_all(alloc, src, 8) {
        Ok(bytes) => match put_all(out, bytes.as_slice()) {
            Ok(()) => Status::Ok,
            Err(_) => Status::WriteFault,
        },
        Err(ReadStop::Fault) => Status::ReadFault,
        Err(ReadStop::TooLong) => Status::TooLong,
        Err(ReadStop::NoMemory) => Status::NoMemory,
    }
}

/// Between ends that never fail no fault comes.
fn pass_on_surely(alloc: Global, src: &mut SureSource, out: &mut SureSink) -> Status
    ensures no_read_fault { result ≢ Status.ReadFault }
    ensures no_write_fault { result ≢ Status.WriteFault }
{
    pass_on(alloc, src, out)
}

fn numbers(alloc: Global, numbers: &[u32]) -> Result<Vec<u32>, Fail> {
    Ok(numbers.to_vec(alloc)?)
}

fn source(alloc: Global, text: &[u8], fails: &[u32]) -> Result<MemSource, Fail> {
    Ok(MemSource::new(text.to_vec(alloc)?, 3, numbers(alloc, fails)?))
}

#[test]
fn reads_all_in_short_pieces(rt: HostRuntime) -> Result<(), Fail> {
    let mut src = source(rt.alloc(), b"eight by", &[])?;
    let bytes = read_all(rt.alloc(), &mut src, 8)?;
    assert_eq!(rt; bytes.as_slice(), b"eight by".as_slice());
    let mut buf = [0u8; 4];
    assert_eq!(rt; src.read(&mut buf), Ok(0));
    Ok(())
}

#[test]
fn refuses_one_byte_too_many(rt: HostRuntime) -> Result<(), Fail> {
    let mut src = source(rt.alloc(), b"nine byte", &[])?;
    assert!(rt; matches!(&read_all(rt.alloc(), &mut src, 8), Err(ReadStop::TooLong)));
    Ok(())
}

/// Whether a reading of 8 bytes ends so where this read fails: with a fault, or with so many bytes.
fn reads_with(alloc: Global, fails: u32, ends: Option<usize>) -> Result<bool, Fail> {
    let mut src = source(alloc, b"eight by", &[fails])?;
    match read_all(alloc, &mut src, 8) {
        Ok(bytes) => Ok(ends == Some(bytes.len())),
        Err(ReadStop::Fault) => Ok(ends.is_none()),
        Err(_) => Ok(false),
    }
}

/// Whether the read after the bytes fails where it is to, and the one after that finds the end.
fn ends_after_fault(alloc: Global) -> Result<bool, Fail> {
    let mut src = source(alloc, b"", &[0])?;
    let mut buf = [0u8; 4];
    let fails = src.read(&mut buf).is_err();
    Ok(fails && src.read(&mut buf) == Ok(0))
}

#[test]
fn a_failing_read_is_a_fault(rt: HostRuntime) -> Result<(), Fail> {
    for number in 0..4 {
        assert!(rt; reads_with(rt.alloc(), number, None)?);
    }
    assert!(rt; reads_with(rt.alloc(), 4, Some(8))?);
    assert!(rt; ends_after_fault(rt.alloc())?);
    Ok(())
}

/// Whether each text is written, or fails, as it says, and this is then held, with so many bytes beyond.
fn writes(out: &mut MemSink, calls: &[(&[u8], bool)], holds: &[u8], beyond: u64) -> bool {
    for (text, is_written) in calls {
        if put_all(out, text).is_ok() != *is_written {
            return false;
        }
    }
    out.as_slice() == holds && out.beyond() == beyond
}

const TEXTS: [(&[u8], bool); 4] = [(b"one", true), (b"", true), (b"two", true), (b"six", false)];

#[test]
fn a_failing_write_leaves_a_first_part(rt: HostRuntime) -> Result<(), Fail> {
    let fails = numbers(rt.alloc(), &[2])?;
    let mut out = MemSink::new(rt.alloc(), 8, fails)?;
    assert!(rt; writes(&mut out, &TEXTS, b"onetwo", 0));
    assert!(rt; writes(&mut out, &[(b"six", true)], b"onetwosi", 1));
    Ok(())
}

/// Whether a text is passed on.
fn passes(alloc: Global, text: &[u8], out: &mut SureSink) -> Result<bool, Fail> {
    let mut src = SureSource::new(text.to_vec(alloc)?);
    Ok(pass_on_surely(alloc, &mut src, out) == Status::Ok)
}

#[test]
fn passes_on_between_sure_ends(rt: HostRuntime) -> Result<(), Fail> {
    let mut out = SureSink::new(rt.alloc(), 8)?;
    assert!(rt; passes(rt.alloc(), b"a text", &mut out)?);
    assert!(rt; passes(rt.alloc(), b"more", &mut out)?);
    assert!(rt; out.as_slice() == b"a textmo".as_slice() && out.beyond() == 2);
    Ok(())
}

/// A reader of two bytes a read whose third read fails, and a writer of one byte a write whose third write fails.
#[derive(Drop)]
struct Flawed(u8);

impl Read for Flawed {
    fn read(&mut self, buf: &mut [u8]) -> io::Result<usize> {
        self.0 = self.0.saturating_add(1);
        if self.0 == 3 {
            return Err(io::Error::from(io::ErrorKind::Other));
        }
        Ok(buf.len().min(2))
    }
}

impl Write for Flawed {
    fn write(&mut self, buf: &[u8]) -> io::Result<usize> {
        self.0 = self.0.saturating_add(1);
        match self.0 {
            3 => Err(io::Error::from(io::ErrorKind::Other)),
            5 => Ok(0),
            _ => Ok(buf.len().min(1)),
        }
    }

    fn flush(&mut self) -> io::Result<()> {
        Ok(())
    }
}

#[test]
fn an_error_of_std_is_a_fault(rt: HostRuntime) -> Result<(), Fail> {
    let mut src = StdSource::new(Flawed(0));
    assert!(rt; matches!(&read_all(rt.alloc(), &mut src, 8), Err(ReadStop::Fault)));
    assert!(rt; matches!(&read_all(rt.alloc(), &mut src, 8), Err(ReadStop::TooLong)));

    let mut out = StdSink::new(Flawed(0));
    assert!(rt; put_all(&mut out, b"ab").is_ok());
    assert!(rt; put_all(&mut out, b"c").is_err());
    assert!(rt; put_all(&mut out, b"c").is_ok());
    assert!(rt; put_all(&mut out, b"d").is_err());
    Ok(())
}

/// What failed is not asked again: the call after the one that fails would succeed.
#[test]
fn std_is_asked_once(rt: HostRuntime) -> Result<(), Fail> {
    let mut flawed = Flawed(2);
    let mut src = StdSource::new(&mut flawed);
    assert!(rt; src.read(&mut [0u8; 4]).is_err());
    assert_eq!(rt; flawed.0, 3);

    let mut flawed = Flawed(2);
    let mut out = StdSink::new(&mut flawed);
    assert!(rt; out.write(b"ab").is_err());
    assert_eq!(rt; flawed.0, 3);
    Ok(())
}

#[test]
fn passes_on_between_ends_of_std(rt: HostRuntime) -> Result<(), Fail> {
    let mut src = StdSource::new(b"a text".as_slice());
    let mut out = StdSink::new(Vec::new(rt.alloc()));
    assert_eq!(rt; pass_on(rt.alloc(), &mut src, &mut out), Status::Ok);
    Ok(())
}

#[test]
fn numbers_each_status(rt: HostRuntime) -> Result<(), Fail> {
    assert_eq!(rt; Status::Ok.code(), 0);
    assert_eq!(rt; Status::Invalid(9).code(), 1);
    assert_eq!(rt; Status::NoMemory.code(), 7);
    Ok(())
}
