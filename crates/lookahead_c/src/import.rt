// Importing, for C.

ghost use Rattle.std.specs.Prelude.{◌≡◌, length as length_of};
ghost use Rattle.written_file.specs.Output.{output_after, written_answer};
ghost use Rattle.lookahead_c.specs.Importing.{import_numbers};
ghost use Rattle.lookahead_c.specs.Writing.{write_seen};

use super::parameters::ParameterNumbers;
use super::refusal::RefusalNumbers;
use super::written::answer_written;
use lookahead::{Parameters, Refusal};

// The output is the library's to fill.
#[unsafe(no_mangle)]
pub extern "C" fn lookahead_import(
    parameters: ParameterNumbers,
    text: &[u8],
    output: &mut [u8],
    length: &mut usize,
) -> RefusalNumbers
    ensures { record { refusal = result; length = length.new; output = output.new }
        ≡ write_seen (import_numbers parameters text.now (length_of output.old)) length.old output.old }
{
    answer_written(import(parameters, text, output), length)
}

fn import(parameters: ParameterNumbers, text: &[u8], output: &mut [u8]) -> Result<usize, Refusal>
    ensures answer { result ≡ written_answer (import_numbers parameters text.now (length_of output.old)) }
    ensures output { output.new ≡ output_after (import_numbers parameters text.now (length_of output.old)) output.old }
{
    lookahead::import::import(Parameters::try_from(parameters)?, text, output)
}
