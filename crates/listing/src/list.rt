// The listing of any file.

ghost use Rattle.std.specs.Prelude.{◌++◌, ◌≡◌, length, drop};
ghost use Rattle.buffer.specs.Put.{Put, Room};
ghost use Rattle.reading.specs.Reading.{reading};
ghost use Rattle.listing.specs.Listing.{PutAccepted, listing_of};

use buffer::put::Cursor;
use dual_problem::problem::FileProblem;
use lines::print::{put_items, put_refusal, put_result};
use lookahead::Refusal;
use lookahead::train::train;
use training_file::parameters::Parameters;

// Of a file that is accepted the result line, a line for each item, in chain order, and their total; of any other its refusal, and
// nothing is put.
fn put_accepted(file: &[u8], out: &mut Cursor) -> Result<(), Refusal>
    requires { Room (listing_of (reading file.now)) out.old }
    ensures { PutAccepted (reading file.now) result out.old out.new }
{
    let mut multipliers = [0u32; Parameters::MAX_RECORDS];
    let mut gradient = [0i64; Parameters::MAX_RECORDS];
    let mut order = [0u16; Parameters::MAX_RECORDS];
    let trained = train(file, &mut multipliers, &mut gradient)?;
    let problem = FileProblem::read(file, &mut order)?;
    put_result(out, trained);
    put_items(&problem, &multipliers, out);
    Ok(())
}

// What a file prints.
fn put_listing(file: &[u8], out: &mut Cursor)
    requires { Room (listing_of (reading file.now)) out.old }
    ensures { Put (listing_of (reading file.now)) out.old out.new }
{
    if let Err(refusal) = put_accepted(file, out) {
        put_refusal(out, refusal);
    }
}

// No listing is longer: line one has at most 75 bytes, each of at most 256 items adds at most 14, and the total at most 69.
pub const PLACES: usize = 4_096;

// Reads and trains any file, and writes its listing into the buffer's first places; later places keep theirs. Its end is the answer, since a
// `String` would take the heap.
pub fn list(file: &[u8], out: &mut [u8; PLACES]) -> usize
    ensures end { result ≡ length (listing_of (reading file.now)) }
    ensures buffer { out.new ≡ listing_of (reading file.now) ++ drop result out.old }
{
    let mut listing = Cursor { bytes: out, at: 0 };
    put_listing(file, &mut listing);
    listing.at
}
