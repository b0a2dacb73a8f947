//! The bytes of the files that are named on a command line.
ghost use Rattle.std.specs.Prelude.{◌≡◌, ℕ, List, Option, IfOk, IfSome};
ghost use Rattle.toml_streams.specs.Streams as spec;

use crate::read_all;
use std::rt::Files;
use std::{fs, io};

/// The name of standard input on a command line.
pub const STANDARD_INPUT: &str = "-";

/// What has the bytes of files.
pub trait Source {
    // the bytes of the file of a name, where they are known
    ghost bytes: { Self → List ℕ → Option (List ℕ) };

    /// The bytes of the file of a name.
    fn read(&self, name: &str) -> io::Result<Vec<u8>>
        ensures { IfOk result (λ all. IfSome (bytes self.now name.now) (λ known. all.items ≡ known)) };
}

/// The files of the system, and standard input as the file [`STANDARD_INPUT`].
#[derive(Clone, Copy)]
pub struct Disk<'r, R>(pub &'r R);

impl<'r, R: Files + Input + AllocGlobal> Source for Disk<'r, R> {
    ghost use Rattle.std.specs.Prelude.{None};

    ghost bytes = { λ _ _. None };

    fn read(&self, name: &str) -> io::Result<Vec<u8>> {
        let alloc = self.0.alloc();
        if name == STANDARD_INPUT {
            read_all(alloc, &mut self.0.reader())
        } else {
            read_all(alloc, &mut fs::open(self.0, name)?)
        }
    }
}

/// A name as messages have it: that of standard input is `stdin`.
pub fn display_name(name: &str) -> &str
    ensures { result.now ≡ spec.display_name name.now }
{
    if name == STANDARD_INPUT {
        "stdin"
    } else {
        name
    }
}
