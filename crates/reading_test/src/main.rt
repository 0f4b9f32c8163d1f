// Reads the training files of its input by both public calls, and writes a line for each: what the file is read as, and what the order
// table holds afterwards. The files and the answers are the second implementation's (tests/reference, program `stored`).
#![tactic(auto)]

ghost use Rattle.std.specs.Prelude.{◌≤◌};

use reading::reader;
use std::io;
use std::io::Read;
use training_file::bytes::u16_at;
use training_file::parameters::Parameters;
use training_file::refusal::Refusal;

// More files than there are.
const MOST: usize = 1_000;

// The bytes of the longest file: a record more than a file may have. It and the table are of a fixed length: there is no heap.
const LONGEST: usize = 5_172;

// The places of the longest order table.
const PLACES: usize = Parameters::MAX_RECORDS;

// The record is shown also where it is 0, which no refusal but 3 and 16 may carry.
fn show_answer(rt: &impl Print, answer: Result<(Parameters, usize), Refusal>) -> io::Result<()> {
    match answer {
        Ok((_, items)) => print!(rt; "accepted {items}"),
        Err(refusal) => print!(rt; "refused {} {}", refusal.number(), refusal.record()),
    }
}

// The table holds 9s before the call, so that what reading leaves alone shows. Without places the other call is tried: there is no table to lend, so
// that a closure for each call would be no plainer.
fn show(rt: &impl Print, file: &[u8], places: usize) -> io::Result<()>
    requires { places ≤ 256 }
{
    if places == 0 {
        show_answer(rt, reader::read(file))?;
    } else {
        let mut table = [9u16; PLACES];
        let lent = &mut table[..places];
        show_answer(rt, reader::order(file, lent))?;
        print!(rt; ":")?;
        for number in lent {
            print!(rt; " {number}")?;
        }
    }
    println!(rt)
}

// The name comes after its length in one byte, which stays 0 where the input has ended. An empty name isn't shown.
fn show_name(rt: &impl Print, input: &mut impl Read) -> io::Result<()> {
    let mut head = [0u8; 1];
    let _ = input.read_exact(&mut head);
    let length = usize::from(head[0]);
    if length == 0 {
        return Ok(());
    }
    let mut space = [0u8; 256];
    let name = &mut space[..length];
    let _ = input.read_exact(name);
    rt.write_all(name)?;
    print!(rt; ": ")
}

// Whether there was another file, after its name, the places of the table to lend and its length.
fn show_next(rt: &impl Print, input: &mut impl Read) -> io::Result<bool> {
    show_name(rt, input)?;
    let mut sizes = [0u8; 4];
    if input.read_exact(&mut sizes).is_err() {
        return Ok(false);
    }
    let places = usize::from(u16_at(&sizes, 0));
    let length = usize::from(u16_at(&sizes, 2));
    if PLACES < places || LONGEST < length {
        return Ok(false);
    }
    let mut space = [0u8; LONGEST];
    let file = &mut space[..length];
    if input.read_exact(file).is_err() {
        return Ok(false);
    }
    show(rt, file, places)?;
    Ok(true)
}

fn main(rt: HostRuntime) -> io::Result<()> {
    let mut input = rt.stdin();
    for _ in 0..MOST {
        if !show_next(&rt, &mut input)? {
            break;
        }
    }
    Ok(())
}
