// Importing, as the desktop tool for librarians calls it.

ghost use Rattle.std.specs.Prelude.{◌≡◌, length};
ghost use Rattle.written_file.specs.Output.{output_after, written_answer};
ghost use Rattle.importing.specs.Importing.{importing as importing_of};

use training_file::parameters::Parameters;
use training_file::refusal::Refusal;

// Writes the training file of any parameters and the lines of a text of libsvm's line form, and answers its length, or the refusal. The bytes
// of the output past the file keep their contents; on a refusal all of them do. The text may be of any length.
pub fn import(parameters: Parameters, text: &[u8], output: &mut [u8]) -> Result<usize, Refusal>
    ensures answer { result ≡ written_answer (importing_of parameters text.now (length output.old)) }
    ensures output { output.new
        ≡ output_after (importing_of parameters text.now (length output.old)) output.old }
{
    importing::import::import(parameters, text, output)
}
