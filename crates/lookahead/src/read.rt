// Reading, as the modules of the reader call it.

ghost use Rattle.std.specs.Prelude.{◌≡◌};
ghost use Rattle.reading.specs.Reading.{reading};
ghost use Rattle.reading.specs.Calls.{file_answer, table_after};

use reading::reader;
use training_file::parameters::Parameters;
use training_file::refusal::Refusal;

// The parameters and the number of items of any file, or the refusal. The record numbers in chain order are written into the lent
// table's first places, as many as it has places for; on a refusal it keeps its contents.
pub fn read(file: &[u8], table: &mut [u16]) -> Result<(Parameters, usize), Refusal>
    ensures answer { result ≡ file_answer (reading file.now) }
    ensures table { table.new ≡ table_after (reading file.now) table.old }
{
    reader::order(file, table)
}
