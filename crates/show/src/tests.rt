// What comes of an input or an output that fails midway, and that the text of the empty file is printed.
use super::{read_full, show};
use std::io::{self, ErrorKind, Read, Write};
use std::test::Fail;

// One byte a read, as long as any are left, and then an error.
#[derive(Drop)]
struct Failing {
    left: u8,
}

impl Read for Failing {
    fn read(&mut self, buf: &mut [u8]) -> io::Result<usize> {
        if self.left == 0 {
            return Err(io::Error::from(ErrorKind::BrokenPipe));
        }
        let Some(first) = buf.first_mut() else {
            return Ok(0);
        };
        *first = self.left;
        self.left -= 1;
        Ok(1)
    }
}

// It takes nothing.
#[derive(Drop)]
struct Full;

impl Write for Full {
    fn write(&mut self, _buf: &[u8]) -> io::Result<usize> {
        Err(io::Error::from(ErrorKind::StorageFull))
    }

    fn flush(&mut self) -> io::Result<()> {
        Ok(())
    }
}

#[test]
fn reads_until_the_space_is_full(rt: HostRuntime) -> Result<(), Fail> {
    let mut space = [0u8; 3];
    let n = read_full(&mut Failing { left: 3 }, &mut space)?;
    assert_eq!(rt; n, 3);
    assert_eq!(rt; space, [3, 2, 1]);
    Ok(())
}

#[test]
fn tells_of_a_read_that_fails(rt: HostRuntime) -> Result<(), Fail> {
    let mut space = [0u8; 4];
    let read = read_full(&mut Failing { left: 3 }, &mut space);
    assert!(rt; read.is_err());
    Ok(())
}

#[test]
fn prints_the_fault_of_the_empty_file(rt: HostRuntime) -> Result<(), Fail> {
    let mut space = [0u8; 12];
    let mut out = Vec::new(rt.alloc());
    show(b"", &mut space, &mut out)?;
    assert_eq!(rt; out.as_slice(), b"refused 32\n".as_slice());
    Ok(())
}

#[test]
fn tells_of_a_write_that_fails(rt: HostRuntime) -> Result<(), Fail> {
    let mut space = [0u8; 12];
    let printed = show(b"", &mut space, &mut Full);
    assert!(rt; printed.is_err());
    assert_eq!(rt; space, *b"refused 32\n\0");
    Ok(())
}

#[test]
fn prints_nothing_where_the_space_is_short(rt: HostRuntime) -> Result<(), Fail> {
    let mut space = [0u8; 10];
    let mut out = Vec::new(rt.alloc());
    show(b"", &mut space, &mut out)?;
    assert_eq!(rt; out.len(), 0);
    Ok(())
}
