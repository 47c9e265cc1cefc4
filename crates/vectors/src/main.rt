// Runs named job files one after the other, and prints each name and what its run gives. They come as a bundle on standard input: their number,
// then for each its name and its bytes, both with their length in front. Numbers have four bytes.
#![tactic(auto)]

ghost use Rattle.std.specs.Io.{ReadsAtMost};
ghost use Rattle.vectors.specs.Reading.{TakesBuffer};

use std::io;

// Reads until the buffer is full or the input ends, and gives how many bytes came. The rest of the buffer stays as it was.
// The program integrator has a twin, by way of a chunk, which its edits bytes_lost and chunks_at_the_front change.
fn read_full<R: io::Read>(input: &mut R, buffer: &mut [u8]) -> io::Result<usize>
    ensures bound { ReadsAtMost result buffer.new }
    ensures bytes { TakesBuffer buffer.new (R.remaining input.old) (R.remaining input.new) result }
{
    let mut at: usize = 0;
    // No index is counted: the place moves by what came. read_exact refuses an input that ends first, and io::copy reads on after an interruption.
    while at < buffer.len() {
        let count = input.read(&mut buffer[at..])?;
        if count == 0 {
            break;
        }
        at += count;
    }
    Ok(at)
}

// A number of the bundle. Where the bundle ends early, the bytes that are missing count as zeros.
fn read_number<R: io::Read>(input: &mut R) -> io::Result<usize> {
    let mut four = [0u8; 4];
    read_full(input, &mut four)?;
    Ok(jobfile::four_at(&four, 0) as usize)
}

// Reads a name or a file into the front of a buffer, as far as it has room, and gives its length.
fn read_part<R: io::Read>(input: &mut R, buffer: &mut [u8]) -> io::Result<usize>
    ensures { ReadsAtMost result buffer.new }
{
    let length = read_number(input)?.min(buffer.len());
    read_full(input, &mut buffer[..length])?;
    Ok(length)
}

// Prints the next name as a line.
fn copy_name<R: io::Read, W: io::Write>(input: &mut R, output: &mut W) -> io::Result<()> {
    let mut name = [0u8; 64];
    let length = read_part(input, &mut name)?;
    output.write_all(&name[..length])?;
    output.write_all(b"\n")
}

// Runs the next file, and prints what it gives.
fn run_next<R: io::Read, W: io::Write>(input: &mut R, output: &mut W) -> io::Result<()> {
    copy_name(input, output)?;
    let mut file = [0u8; 38937];
    let length = read_part(input, &mut file)?;
    let mut report = [0u8; 512];
    output.write_all(running::text(&file[..length], &mut report))
}

fn main(rt: HostRuntime) -> io::Result<()> {
    let mut input = rt.stdin();
    let mut output = rt.stdout();
    let files = read_number(&mut input)?;
    for _ in 0..files {
        run_next(&mut input, &mut output)?;
    }
    Ok(())
}
