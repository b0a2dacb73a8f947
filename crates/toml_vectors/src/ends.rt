// What `toml_streams` makes of a reader and a writer that fail, at each of their calls.
use std::io::{self, Read, Write};
use std::test::Fail;
use toml_streams::{FAILED, read_all, tell_failure, write_all};

/// Gives at most so many bytes at a call, and fails once, after some calls.
#[derive(Drop)]
struct Reader {
    left: &'static [u8],
    most: usize,
    calls_before_fault: usize,
}

impl Read for Reader {
    fn read(&mut self, buf: &mut [u8]) -> io::Result<usize> {
        if self.calls_before_fault == 0 {
            self.calls_before_fault = usize::MAX;
            return Err(io::Error::from(io::ErrorKind::Interrupted));
        }
        self.calls_before_fault -= 1;
        let n = self.left.len().min(buf.len()).min(self.most);
        buf[..n].copy_from_slice(&self.left[..n]);
        self.left = &self.left[n..];
        Ok(n)
    }
}

/// Takes at most so many bytes at a call, and once, after some calls, none: by an error, or as if there were no room.
#[derive(Drop)]
struct Sink {
    bytes: Vec<u8>,
    most: usize,
    calls_before_fault: usize,
    is_interrupted: bool,
}

impl Write for Sink {
    fn write(&mut self, buf: &[u8]) -> io::Result<usize> {
        if self.calls_before_fault == 0 {
            self.calls_before_fault = usize::MAX;
            if self.is_interrupted {
                return Err(io::Error::from(io::ErrorKind::Interrupted));
            }
            return Ok(0);
        }
        self.calls_before_fault -= 1;
        let n = buf.len().min(self.most);
        self.bytes.extend_from_slice(&buf[..n])?;
        Ok(n)
    }

    fn flush(&mut self) -> io::Result<()> {
        Ok(())
    }
}

// One call more reads than there are parts: it sees the end.
#[test]
fn fails_at_each_read(rt: HostRuntime) -> Result<(), Fail> {
    let text = b"a = 7\nb = [true]".as_slice();
    for most in [1usize, 5, 64] {
        for reads in 0..40usize {
            let mut reader = Reader {
                left: text,
                most,
                calls_before_fault: reads,
            };
            match read_all(rt.alloc(), &mut reader) {
                Ok(bytes) => {
                    assert!(rt; reads > text.len().div_ceil(most), "{reads} of {most}");
                    assert_eq!(rt; bytes.as_slice(), text);
                }
                Err(error) => {
                    assert!(rt; reads <= text.len().div_ceil(most), "{reads} of {most}");
                    let mut told = Vec::new(rt.alloc());
                    assert_eq!(rt;
                        tell_failure(rt.alloc(), &mut told, "a.toml", error),
                        FAILED
                    );
                    assert_eq!(rt;
                        told.as_slice(),
                        b"a.toml: operation interrupted\n".as_slice()
                    );
                }
            }
        }
    }
    Ok(())
}

#[test]
fn fails_at_each_write(rt: HostRuntime) -> Result<(), Fail> {
    let text = b"a = 7\nb = [true]\n".as_slice();
    for (most, is_interrupted) in [
        (1usize, true),
        (1, false),
        (5, true),
        (5, false),
        (64, true),
    ] {
        for writes in 0..40usize {
            let mut output = Sink {
                bytes: Vec::new(rt.alloc()),
                most,
                calls_before_fault: writes,
                is_interrupted,
            };
            let taken = writes.saturating_mul(most);
            match write_all(&mut output, text) {
                Ok(()) => {
                    assert!(rt; taken >= text.len(), "{writes} of {most}");
                }
                Err(error) => {
                    assert!(rt; taken < text.len(), "{writes} of {most}");
                    let mut told = Vec::new(rt.alloc());
                    assert_eq!(rt;
                        tell_failure(rt.alloc(), &mut told, "stdout", error),
                        FAILED
                    );
                    let line = if is_interrupted {
                        b"stdout: operation interrupted\n".as_slice()
                    } else {
                        b"stdout: write zero\n"
                    };
                    assert_eq!(rt; told.as_slice(), line);
                }
            }
            assert_eq!(rt; output.bytes.len(), taken.min(text.len()));
            assert!(rt; text.starts_with(output.bytes.as_slice()));
        }
    }
    Ok(())
}

/// Takes no byte.
#[derive(Drop)]
struct Full;

impl Write for Full {
    fn write(&mut self, _buf: &[u8]) -> io::Result<usize> {
        Ok(0)
    }

    fn flush(&mut self) -> io::Result<()> {
        Ok(())
    }
}

#[test]
fn fails_where_no_byte_is_taken(rt: HostRuntime) {
    assert!(rt; write_all(&mut Full, b"a = 7").is_err());
    assert!(rt; write_all(&mut Full, b"").is_ok());
    assert_eq!(rt;
        tell_failure(rt.alloc(), &mut Full, "stdout", "full"),
        FAILED
    );
}
