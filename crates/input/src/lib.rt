// Reads the bytes of a job.
#![tactic(auto)]

#[cfg(test)]
mod tests;

ghost use Rattle.std.specs.Prelude.{◌≡◌, ◌+◌, ◌≤◌, length, take, IfOk, IfSome};
ghost use Rattle.jobtext.specs.Words.{job_limit};

use anyhow::anyhow;
use std::alloc::Global;
use std::fs::File;
use std::io::Read;
use std::rt::{Env, Files};
use std::{env, io};
use words::MOST_BYTES;

// All bytes of a job, and of a longer input one byte too many.
pub fn read_bytes<R: Read + Drop>(heap: Global, input: R) -> io::Result<Vec<u8>>
    ensures few { IfOk result (λ v. length v.items ≤ job_limit + 1) }
    ensures all { IfSome (R.Read.remaining input) (λ bytes. IfOk result (λ v. v.items ≡ take (job_limit + 1) bytes)) }
{
    let mut bytes = Vec::new(heap);
    input.take(MOST_BYTES as u64 + 1).read_to_end(&mut bytes)?;
    // A reader that says nothing of its bytes is held to the number too.
    bytes.truncate(MOST_BYTES + 1);
    Ok(bytes)
}

// The bytes of the file that is named, or of standard input where none is.
pub fn read_input<R: Env + Files + Input + AllocGlobal>(rt: &R) -> anyhow::Result<Vec<u8>>
    ensures { IfOk result (λ v. length v.items ≤ job_limit + 1) }
{
    let mut args = env::args(rt)?;
    let _program = args.next();
    match (args.next(), args.next()) {
        (None, _) => Ok(read_bytes(rt.alloc(), rt.reader())?),
        (Some(path), None) => Ok(read_bytes(rt.alloc(), File::open(rt, path.as_str())?)?),
        _ => Err(anyhow!("at most one file is named")),
    }
}
