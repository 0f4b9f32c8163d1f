// The public call: parameters and items in memory become a training file, or are refused with a number.

ghost use Rattle.std.specs.Prelude.{◌≡◌, length};
ghost use Rattle.written_file.specs.Output.{output_after, written_answer};
ghost use Rattle.writing.specs.Writing.{writing};

use super::row::Row;
use super::rows::{judge_rows, put_rows};
use buffer::put::Cursor;
use training_file::parameters::Parameters;
use training_file::refusal::Refusal;
use written_file::header::put_header;
use written_file::output::file_length;

// The length of the file, which stands at the output's start; the bytes past it are left as they were. On a refusal all of them are.
pub fn write(parameters: Parameters, items: &[Row], output: &mut [u8]) -> Result<usize, Refusal>
    ensures answer { result ≡ written_answer (writing parameters items.now (length output.old)) }
    ensures output { output.new ≡ output_after (writing parameters items.now (length output.old)) output.old }
{
    if !parameters.allowed() {
        return Err(Refusal::Header);
    }
    if Parameters::MAX_RECORDS < items.len() {
        return Err(Refusal::FileLength);
    }
    let looked_up = judge_rows(items, parameters.used)?;
    if looked_up == 0 || looked_up == items.len() {
        return Err(Refusal::Labels);
    }
    let length = file_length(items.len(), output.len())?;
    let mut out = Cursor {
        bytes: output,
        at: 0,
    };
    put_header(&mut out, items.len(), parameters);
    put_rows(&mut out, items);
    Ok(length)
}
