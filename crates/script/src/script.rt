// A job's text, read whole.
ghost use Rattle.std.specs.Prelude.{◌≤◌, length, IfOk};
ghost use Rattle.jobtext.specs.Readings.{reading_of, script_of};
ghost use Rattle.jobtext.specs.Words.{job_limit};
ghost use Rattle.script.specs.Scripts.{Tells, Follows};

use super::reader::Reader;
use jobtext::{Entry, Fault, Kind};
use std::alloc::{AllocError, Global};
use words::Words;

// No Result: a fault behind the kind comes with all that was read before it.
//
// What a job asks for: its kind, the requests in turn, each with the word that is blamed for it, and the fault that ends the reading.
#[derive(Drop)]
pub struct Script {
    pub kind: Option<Kind>,
    pub entries: Vec<Entry>,
    pub fault: Option<Fault>,
}

// Reads the words of a job.
fn read_words(heap: Global, input: Words) -> Result<Script, AllocError>
    ensures { IfOk result (λ s. Tells s (reading_of input.entry.left)) }
{
    let mut reader = Reader {
        input,
        entries: Vec::new(heap),
    };
    let (kind, fault) = match reader.input.kind() {
        Ok(kind) => match reader.body() {
            Ok(()) => (Some(kind), None),
            Err(stop) => (Some(kind), Some(stop.fault()?)),
        },
        Err(fault) => (None, Some(fault)),
    };
    Ok(Script {
        kind,
        entries: reader.entries,
        fault,
    })
}

// Reads a job. It fails only for want of memory.
pub fn read(heap: Global, bytes: &[u8]) -> Result<Script, AllocError>
    ensures tells { IfOk result (λ s. Tells s (script_of bytes.now)) }
    ensures follows { length bytes.now ≤ job_limit → IfOk result (λ s. Follows s bytes.now) }
{
    match Words::new(bytes) {
        Ok(input) => read_words(heap, input),
        Err(fault) => Ok(Script {
            kind: None,
            entries: Vec::new(heap),
            fault: Some(fault),
        }),
    }
}
