// Trains the stored training files of its input, each after its length in two bytes, and writes the listing of each below its number.
// The files are of all kinds, and the listings are those of the second implementation (tests/reference, program `stored`).
#![tactic(auto)]

use std::io;
use std::io::Read;

// More files than there are.
const MOST: u64 = 1_000;

// The places of the buffer, more than a length of two bytes can say. Both buffers are of a fixed length, as the library's: there is no heap.
const PLACES: usize = 65_536;

fn show(rt: &impl Print, number: u64, file: &[u8]) -> io::Result<()> {
    let mut out = [0u8; listing::list::PLACES];
    let count = listing::list::list(file, &mut out);
    println!(rt; "file {number}")?;
    rt.write_all(&out[..count])
}

// The next file, read into the buffer; none where the input has not so many bytes.
fn next_file<'a>(input: &mut impl Read, buffer: &'a mut [u8; PLACES]) -> Option<&'a [u8]> {
    let mut head = [0u8; 2];
    input.read_exact(&mut head).ok()?;
    let file = &mut buffer[..usize::from(u16::from_le_bytes(head))];
    input.read_exact(file).ok()?;
    Some(file)
}

fn main(rt: HostRuntime) -> io::Result<()> {
    let mut input = rt.stdin();
    let mut buffer = [0u8; PLACES];
    for number in 1..MOST {
        let Some(file) = next_file(&mut input, &mut buffer) else {
            break;
        };
        show(&rt, number, file)?;
    }
    Ok(())
}
