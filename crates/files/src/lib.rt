// A file read into lent bytes, and the numbers that the system gives a program's streams.
#![tactic(auto)]

ghost use Rattle.std.specs.Prelude.{◌≡◌, OnErr, IfOk};
ghost use Rattle.io.specs.Counts.{IsPrefixLen};

use std::fs::File;
use std::io::Result;
use std::os::fd::AsRawFd;
use std::rt::Files;

pub const STDIN: i32 = 0;

pub const STDOUT: i32 = 1;

pub const STDERR: i32 = 2;

// Reads a file, and says how many bytes it gave, or why it cannot be opened: then nothing is written.
pub fn read(files: &impl Files<File = File>, path: &str, bytes: &mut [u8]) -> Result<usize>
    ensures count { IfOk result (λ n. IsPrefixLen n bytes.new) }
    ensures refused { OnErr result (bytes.new ≡ bytes.old) }
{
    let file = File::open(files, path)?;
    Ok(io::read_full(file.as_raw_fd(), bytes))
}
