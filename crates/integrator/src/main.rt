// The program: a job file on standard input, its report or the line of its refusal on standard output.
#![tactic(auto)]

ghost use Rattle.std.specs.Prelude.{◌≡◌, ◌+◌, ◌-◌, ◌≤◌, min, length, OnOk};
ghost use Rattle.std.specs.Io.KnownBytes.{Appends};
ghost use Rattle.std.proofs.Math.Seq.{paste};
ghost use Rattle.running.specs.Report.{text_of};
ghost use Rattle.integrator.specs.Reading.{Read, Fits, TakesChunk, TakesFile};
ghost use Rattle.integrator.specs.Run.{Runs};

use std::error::Error;
use std::{fmt, io};

// Why the program ended with no report, or with a part of it.
#[derive(Drop)]
enum JobError {
    NotRead(io::Error),
    NotWritten(io::Error),
}

impl fmt::Display for JobError {
    fn fmt<W: fmt::Write>(&self, f: &mut fmt::Formatter<W>) -> fmt::Result {
        match self {
            JobError::NotRead(error) => write!(f, "the job file cannot be read: {error}"),
            JobError::NotWritten(error) => write!(f, "the report cannot be written: {error}"),
        }
    }
}

// `main`'s error is printed by its `Debug`: in the same words.
impl fmt::Debug for JobError {
    fn fmt<W: fmt::Write>(&self, f: &mut fmt::Formatter<W>) -> fmt::Result {
        write!(f, "{self}")
    }
}

impl Error for JobError {}

// Puts the first bytes of a chunk into the file from `at` on. The count stands by itself since two edits change it (must-fail/bytes_lost, chunks_at_the_front).
fn put_chunk(chunk: &[u8], count: usize, at: usize, file: &mut [u8])
    requires { (count ≤ length chunk.now) × (at + count ≤ length file.old) }
    ensures { file.new ≡ paste file.old at chunk.now count }
{
    file[at..at + count].copy_from_slice(&chunk[..count]);
}

// Reads once, by way of a chunk, and puts what came into the file from `at` on.
fn read_more<R: io::Read>(
    input: &mut R,
    at: usize,
    chunk: &mut [u8],
    file: &mut [u8],
) -> io::Result<usize>
    requires { at ≤ length file.old }
    ensures stands { Read at chunk.new file.old file.new result }
    ensures within { Fits (length chunk.new) result }
    ensures bytes { TakesChunk (min (length file.old - at) (length chunk.old)) chunk.new (R.remaining input.old) (R.remaining input.new) result }
{
    let room = (file.len() - at).min(chunk.len());
    let count = input.read(&mut chunk[..room])?;
    put_chunk(chunk, count, at, file);
    Ok(count)
}

// Reads until the input ends or the file is full.
fn read_file<R: io::Read>(input: &mut R, file: &mut [u8]) -> io::Result<usize>
    ensures fits { Fits (length file.new) result }
    ensures bytes { TakesFile file.new (R.remaining input.old) (R.remaining input.new) result }
{
    let mut chunk = [0u8; 4096];
    let mut at: usize = 0;
    // No index is counted: the place moves by what came. read_exact refuses an input that ends first, and io::copy reads on after an interruption.
    while at < file.len() {
        let count = read_more(input, at, &mut chunk, file)?;
        if count == 0 {
            break;
        }
        at += count;
    }
    Ok(at)
}

// Runs the job and writes what it gives.
fn print_report<W: io::Write>(output: &mut W, bytes: &[u8]) -> io::Result<()>
    ensures { OnOk result (Appends (W.contents output.old) (W.contents output.new) (text_of bytes.now)) }
{
    let mut report = [0u8; 512];
    output.write_all(running::text(bytes, &mut report))
}

// Reads one byte more than the longest file of the right form has: what would come after it cannot change the answer.
fn run_job<R: io::Read, W: io::Write>(input: &mut R, output: &mut W) -> Result<(), JobError>
    ensures { Runs (R.remaining input.old) (W.contents output.old) (W.contents output.new) result }
{
    let mut file = [0u8; 38937];
    let count = read_file(input, &mut file).map_err(JobError::NotRead)?;
    print_report(output, &file[..count]).map_err(JobError::NotWritten)?;
    Ok(())
}

fn main(rt: HostRuntime) -> Result<(), JobError> {
    run_job(&mut rt.stdin(), &mut rt.stdout())
}
