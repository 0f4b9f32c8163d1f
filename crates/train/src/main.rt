// The training program: one training file on standard input, its listing on standard output (document 01, last part of "Settled examples").
// It may use `listing`, and of what a file is `reading` and `training_file`; what it reads and writes goes through std's streams.
#![tactic(auto)]

ghost use Rattle.std.specs.Prelude.{◌≡◌, ◌≤◌, length};
ghost use Rattle.train.specs.Cut.{SameWhenCut};
ghost use Rattle.train.specs.Input.{FitsBuffer, input_of};

use std::io;
use std::io::{Read, Write};
use training_file::layout;
use training_file::parameters::Parameters;

// What a read into these places returned: so many bytes, 0 at the end of the input, or an error.
fn input_of(got: io::Result<usize>, places: &[u8]) -> io::Result<usize>
    ensures { result ≡ input_of got (length places.now) }
{
    got.map(|count| count.min(places.len()))
}

// One read, into the buffer from a place on.
fn read_some(reader: &mut impl Read, buffer: &mut [u8], from: usize) -> io::Result<usize>
    requires { from ≤ length buffer.old }
    ensures { FitsBuffer from result buffer.old }
{
    let rest = &mut buffer[from..];
    let got = reader.read(rest);
    input_of(got, rest)
}

// Reads until the buffer is full or the input ends. An input that is longer is cut, so the buffer has to be of a length at which that does
// not change the listing.
fn read_input(reader: &mut impl Read, buffer: &mut [u8]) -> io::Result<usize>
    requires { SameWhenCut (length buffer.old) }
    ensures { FitsBuffer 0 result buffer.old }
{
    let mut count = 0;
    while count < buffer.len() {
        let more = read_some(reader, buffer, count)?;
        if more == 0 {
            break;
        }
        count += more;
    }
    Ok(count)
}

// A place more than the longest file that is accepted: a file that fills them all is longer than any that is accepted, and is refused with
// 1 for its length, whatever bytes follow. So no further byte has to be read. Both buffers are of a fixed length, since nothing here uses the heap.
const PLACES: usize = layout::HEADER_LENGTH + layout::RECORD_LENGTH * Parameters::MAX_RECORDS + 1;

#[tactic(auto, using(crate::proofs::Laws::Cut::cut_same))]
fn main(rt: HostRuntime) {
    let mut file = [0u8; PLACES];
    let Ok(count) = read_input(&mut rt.stdin(), &mut file) else {
        let _ = rt.eprintln("train: standard input cannot be read");
        return;
    };
    let mut out = [0u8; listing::list::PLACES];
    let end = listing::list::list(&file[..count], &mut out);
    if rt.stdout().write_all(&out[..end]).is_err() {
        let _ = rt.eprintln("train: standard output cannot be written");
    }
}
