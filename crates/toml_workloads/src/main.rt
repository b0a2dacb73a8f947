//! Does one of the jobs that a user of TOML waits for, on made texts, and prints a digest of all that came of it: for
//! `bench/run` to time.
//!
//!     toml_workloads JOB ROUNDS SEED
//!
//! JOB is one of those below, or `all`; each round makes other texts, by the seed.
//!
//! - `manifests`: small manifests and settings are read, as a table and as a derived type.
//! - `locks`: lock files are read, and written again.
//! - `records`: arrays of records are read and written, derived and by hand.
//! - `flags`: one table of many keys is read, in three orders, and each key is looked up.
//! - `awkward`: texts of other shapes are read: headers that interleave, arrays in arrays, a fault at the end.
//! - `convert`: a text becomes JSON, and that becomes TOML again.
//!
//! It ends with status 1 where something went wrong that should not, and says what.
#![tactic(auto)]

mod awkward;
mod by_hand;
mod convert;
mod derived;
mod digest;
mod flags;
mod locks;
mod maker;
mod manifests;
mod records;

use digest::Digest;
use maker::Maker;
use std::alloc::Global;
use std::process::ExitCode;
use std::{env, io};

fn main(rt: HostRuntime) -> io::Result<ExitCode> {
    let words: Vec<String> = env::args(&rt)?.skip(1).collect(rt.alloc())?;
    let [job, rounds, seed] = words.as_slice() else {
        eprintln!(rt; "usage: toml_workloads JOB ROUNDS SEED")?;
        return Ok(ExitCode::FAILURE);
    };
    let (Ok(rounds), Ok(seed)) = (rounds.parse::<u32>(), seed.parse::<u32>()) else {
        eprintln!(rt; "ROUNDS and SEED are numbers below 2^32")?;
        return Ok(ExitCode::FAILURE);
    };
    match digest_of(rt.alloc(), job.as_str(), rounds, seed) {
        Ok(digest) => println!(rt; "{digest}")?,
        Err(e) => {
            eprintln!(rt; "{job}: {e}")?;
            return Ok(ExitCode::FAILURE);
        }
    }
    Ok(ExitCode::SUCCESS)
}

// What came of all rounds of a job.
fn digest_of(alloc: Global, job: &str, rounds: u32, seed: u32) -> io::Result<u64> {
    let mut maker = Maker::new(u64::from(seed));
    let mut digest = Digest::new();
    do_job(alloc, job, rounds, &mut maker, &mut digest)?;
    Ok(digest.value())
}

fn do_job(
    alloc: Global,
    job: &str,
    rounds: u32,
    maker: &mut Maker,
    digest: &mut Digest,
) -> io::Result<()> {
    match job {
        "manifests" => manifests::rounds(alloc, maker, rounds, digest),
        "locks" => locks::rounds(alloc, maker, rounds, digest),
        "records" => records::rounds(alloc, maker, rounds, 2000, digest),
        "flags" => flags::rounds(alloc, maker, rounds, 300_000, digest),
        "awkward" => awkward::rounds(alloc, maker, rounds, digest),
        "convert" => convert::rounds(alloc, maker, rounds, digest),
        "all" => {
            manifests::rounds(alloc, maker, rounds, digest)?;
            locks::rounds(alloc, maker, rounds, digest)?;
            records::rounds(alloc, maker, rounds, 100, digest)?;
            flags::rounds(alloc, maker, rounds, 1000, digest)?;
            awkward::rounds(alloc, maker, rounds, digest)?;
            convert::rounds(alloc, maker, rounds, digest)
        }
        _ => Err(io::Error::from(io::ErrorKind::InvalidInput)),
    }
}
