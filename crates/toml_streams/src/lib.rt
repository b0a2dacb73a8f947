//! What the programs share: reading and writing to the end, where no failure is tried again; the file that a name on
//! the command line leads to; what is said of a stream that fails; and the words of the command line.
#![tactic(auto)]

mod arguments;
mod call;
mod failure;
mod source;

ghost use Rattle.std.specs.Prelude.{◌≡◌, IfOk, IfSome, OnOk};
ghost use Rattle.std.specs.Io.KnownBytes.{Appends};
ghost use Rattle.toml_streams.specs.Streams.{AppendsFront};

pub use arguments::Options;
pub use call::{Call, Program, call_of};
pub use failure::{FAILED, failure_line, tell_failure};
pub use source::{Disk, STANDARD_INPUT, Source, display_name};
use std::alloc::Global;
use std::io::{self, Read, Write};

// Room for the whole of most files: it takes no memory of the machine before it is filled.
const ROOM: usize = 1 << 20;

const CHUNK: usize = 1 << 12;

/// All bytes that are left. Up to a megabyte of them is held once; where there are more, the room grows by doubling.
///
/// # Errors
///
/// The first that a read answers, an interrupted one too; and want of memory.
pub fn read_all<R: Read>(alloc: Global, reader: &mut R) -> Result<Vec<u8>, io::Error>
    ensures { IfOk result (λ bytes. IfSome (R.remaining reader.old) (λ left. bytes.items ≡ left)) }
{
    let mut bytes = Vec::with_capacity(alloc, ROOM)?;
    let mut chunk = [0u8; CHUNK];
    for _ in 0..u64::MAX {
        let n = reader.read(&mut chunk)?;
        if n == 0 {
            return Ok(bytes);
        }
        bytes.extend_from_slice(&chunk[..n])?;
    }
    Err(io::Error::from(io::ErrorKind::Other))
}

/// Writes all the bytes; an error leaves a front of them written.
///
/// # Errors
///
/// The first that a write answers, an interrupted one too; and `WriteZero` where a write takes no byte.
#[tactic(auto, using(crate::proofs::FrontIsAppended::front_more))]
pub fn write_all<W: Write>(writer: &mut W, bytes: &[u8]) -> Result<(), io::Error>
    ensures ok { OnOk result (Appends (W.contents writer.old) (W.contents writer.new) bytes.now) }
    ensures front { AppendsFront (W.contents writer.old) (W.contents writer.new) bytes.now }
{
    let mut written = 0;
    while written < bytes.len() {
        let n = writer.write(&bytes[written..])?;
        if n == 0 {
            return Err(io::Error::from(io::ErrorKind::WriteZero));
        }
        written += n;
    }
    Ok(())
}
