// Pooling, as the desktop tool for librarians calls it.

ghost use Rattle.std.specs.Prelude.{◌≡◌, length};
ghost use Rattle.written_file.specs.Output.{output_after, written_answer};
ghost use Rattle.pooling.specs.Pooling.{pooling as pooling_of};

use training_file::refusal::Refusal;

// Writes the training file of two files' items, the older's and then the newer's, of which the last with the same features stays, with the
// newer's parameters, and answers its length, or the refusal. The bytes of the output past the file keep their contents; on a refusal all of
// them do.
pub fn pool(older: &[u8], newer: &[u8], output: &mut [u8]) -> Result<usize, Refusal>
    ensures answer { result ≡ written_answer (pooling_of older.now newer.now (length output.old)) }
    ensures output { output.new
        ≡ output_after (pooling_of older.now newer.now (length output.old)) output.old }
{
    pooling::pool::pool(older, newer, output)
}
