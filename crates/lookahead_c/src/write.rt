// Writing, for C.

ghost use Rattle.std.specs.Prelude.{◌≡◌, length as length_of};
ghost use Rattle.written_file.specs.Output.{output_after, written_answer};
ghost use Rattle.lookahead_c.specs.Writing.{write_numbers, write_seen};

use super::parameters::ParameterNumbers;
use super::refusal::RefusalNumbers;
use super::written::answer_written;
use lookahead::{Parameters, Refusal, Row};

// The output is the library's to fill.
#[unsafe(no_mangle)]
pub extern "C" fn lookahead_write(
    parameters: ParameterNumbers,
    items: &[Row],
    output: &mut [u8],
    length: &mut usize,
) -> RefusalNumbers
    ensures { record { refusal = result; length = length.new; output = output.new }
        ≡ write_seen (write_numbers parameters items.now (length_of output.old)) length.old output.old }
{
    answer_written(write(parameters, items, output), length)
}

fn write(parameters: ParameterNumbers, items: &[Row], output: &mut [u8]) -> Result<usize, Refusal>
    ensures answer { result ≡ written_answer (write_numbers parameters items.now (length_of output.old)) }
    ensures output { output.new ≡ output_after (write_numbers parameters items.now (length_of output.old)) output.old }
{
    lookahead::write::write(Parameters::try_from(parameters)?, items, output)
}
