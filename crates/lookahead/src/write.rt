// Writing, as the desktop tool for librarians calls it.

ghost use Rattle.std.specs.Prelude.{◌≡◌, length};
ghost use Rattle.written_file.specs.Output.{output_after, written_answer};
ghost use Rattle.writing.specs.Writing.{writing as writing_of};

use training_file::parameters::Parameters;
use training_file::refusal::Refusal;
use writing::row::Row;

// Writes the training file of any parameters and items, and answers its length, or the refusal. The bytes of the output past the file keep
// their contents; on a refusal all of them do. An item is a row: sixteen features, then the label's number, `Label::LOOKED_UP` or
// `Label::PASSED_OVER`.
pub fn write(parameters: Parameters, items: &[Row], output: &mut [u8]) -> Result<usize, Refusal>
    ensures answer { result ≡ written_answer (writing_of parameters items.now (length output.old)) }
    ensures output { output.new
        ≡ output_after (writing_of parameters items.now (length output.old)) output.old }
{
    writing::write::write(parameters, items, output)
}
