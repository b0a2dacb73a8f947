//! The table of a document.
ghost use Rattle.std.specs.Prelude.{◌≢◌, IfOk, IfErr};
ghost use Rattle.basic_toml.specs.Data.{table as table_of_members};
ghost use Rattle.basic_toml.specs.Fault.{out_of_memory};
ghost use Rattle.basic_toml.specs.View.{entries};
ghost use Rattle.toml_c.specs.Answers.{Holds, IsRefusal};

use basic_toml::{Error, Table, from_slice};
use std::alloc::Global;

/// The table of the bytes' document.
///
/// # Errors
///
/// That of bytes without one, and want of memory.
pub fn table_of(alloc: Global, input: &[u8]) -> Result<Table, Error>
    ensures ok { IfOk result (λ table. Holds input.now (table_of_members (entries table))) }
    ensures err { IfErr result (λ e. e.kind ≢ out_of_memory → IsRefusal input.now e) }
{
    from_slice(alloc, input)
}
