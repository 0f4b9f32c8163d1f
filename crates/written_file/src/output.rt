// The lent output: whether the file fits.

ghost use Rattle.std.specs.Prelude.{◌≡◌, ◌≤◌};
ghost use Rattle.training_file.specs.Parameters.{records_most};
ghost use Rattle.written_file.specs.Output.{length_answer};

use training_file::layout;
use training_file::refusal::Refusal;

// The length of a file of so many records. Refused where the output has less room.
// The three calls that write a file go on from here alike, by a line each for the cursor, the header and the records: what they test before, and
// in which order, is their own.
pub fn file_length(records: usize, room: usize) -> Result<usize, Refusal>
    requires { records ≤ records_most }
    ensures { result ≡ length_answer records room }
{
    let length = layout::HEADER_LENGTH + layout::RECORD_LENGTH * records;
    if room < length {
        return Err(Refusal::Output);
    }
    Ok(length)
}
