// The public call: parameters and a text become a training file, or are refused with a number.

ghost use Rattle.std.specs.Prelude.{◌≡◌, length};
ghost use Rattle.written_file.specs.Output.{output_after, written_answer};
ghost use Rattle.importing.specs.Importing.{importing};

use super::passes::{judge_text, put_lines};
use buffer::put::Cursor;
use training_file::parameters::Parameters;
use training_file::refusal::Refusal;
use written_file::header::put_header;
use written_file::output::file_length;

// The length of the file, which stands at the output's start; the bytes past it are left as they were. On a refusal all of them are.
pub fn import(parameters: Parameters, text: &[u8], output: &mut [u8]) -> Result<usize, Refusal>
    ensures answer { result ≡ written_answer (importing parameters text.now (length output.old)) }
    ensures output { output.new
        ≡ output_after (importing parameters text.now (length output.old)) output.old }
{
    if !parameters.allowed() {
        return Err(Refusal::Header);
    }
    let judged = judge_text(text, parameters.used)?;
    if Parameters::MAX_RECORDS < judged.lines {
        return Err(Refusal::Lines);
    }
    let looked_up = judged.looked_up.ok_or(Refusal::Record)?;
    if looked_up == 0 || looked_up == judged.lines {
        return Err(Refusal::Labels);
    }
    let length = file_length(judged.lines, output.len())?;
    let mut out = Cursor {
        bytes: output,
        at: 0,
    };
    put_header(&mut out, judged.lines, parameters);
    put_lines(&mut out, text, parameters.used, judged.lines);
    Ok(length)
}
