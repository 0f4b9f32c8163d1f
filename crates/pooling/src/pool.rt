// The public call: two files are pooled as a training file, or are refused with a number.

ghost use Rattle.std.specs.Prelude.{◌≡◌, ◌≤◌, length};
ghost use Rattle.training_file.specs.Layout.{feature_count};
ghost use Rattle.written_file.specs.Output.{output_after, written_answer};
ghost use Rattle.last_items.specs.Last.{last_only};
ghost use Rattle.last_items.specs.Kept.{FewStored};
ghost use Rattle.pooling.specs.Pooling.{alike as alike_parameters, pooling, write_left};
ghost use Rattle.pooling.specs.Left.{both_items};

use super::left::write_left;
use last_items::kept::keep_last;
use last_items::records::Records;
use reading::reader::order;
use training_file::parameters::Parameters;
use training_file::refusal::Refusal;

// Whether two files have as many features in use, and the same kernel. Two files stay two arguments, as the public call and C have them: no fact
// ties the one to the other.
fn alike(older: Parameters, newer: Parameters) -> bool
    ensures { result ≡ alike_parameters older newer }
{
    older.used == newer.used && older.kernel == newer.kernel
}

// The file of the last of equal items, of two files by the numbers of their records. These are moved about.
fn pool_items<'a>(
    older: &'a [u8],
    older_numbers: &'a mut [u16],
    newer: &'a [u8],
    newer_numbers: &'a mut [u16],
    parameters: Parameters,
    output: &mut [u8],
) -> Result<usize, Refusal>
    requires stored { FewStored older.now older_numbers.old × FewStored newer.now newer_numbers.old }
    requires used { parameters.used ≤ feature_count }
    ensures answer { result ≡ written_answer (write_left (length output.old) parameters (last_only feature_count
        (both_items older.now older_numbers.old newer.now newer_numbers.old))) }
    ensures output { output.new ≡ output_after (write_left (length output.old) parameters (last_only feature_count
        (both_items older.now older_numbers.old newer.now newer_numbers.old))) output.old }
{
    let older_left = keep_last(
        older,
        older_numbers,
        &Records {
            file: newer,
            numbers: newer_numbers,
        },
    );
    let newer_left = keep_last(
        newer,
        newer_numbers,
        &Records {
            file: older,
            numbers: &[],
        },
    );
    write_left(
        &Records {
            file: older,
            numbers: &older_numbers[..older_left],
        },
        &Records {
            file: newer,
            numbers: &newer_numbers[..newer_left],
        },
        parameters,
        output,
    )
}

// The length of the file, which stands at the output's start; the bytes past it are left as they were. On a refusal all of them are.
pub fn pool(older: &[u8], newer: &[u8], output: &mut [u8]) -> Result<usize, Refusal>
    ensures answer { result ≡ written_answer (pooling older.now newer.now (length output.old)) }
    ensures output { output.new
        ≡ output_after (pooling older.now newer.now (length output.old)) output.old }
{
    let mut older_table = [0u16; Parameters::MAX_RECORDS];
    let (older_parameters, older_count) = order(older, &mut older_table)?;
    let mut newer_table = [0u16; Parameters::MAX_RECORDS];
    let (parameters, newer_count) = order(newer, &mut newer_table)?;
    if !alike(older_parameters, parameters) {
        return Err(Refusal::Unlike);
    }
    pool_items(
        older,
        &mut older_table[..older_count],
        newer,
        &mut newer_table[..newer_count],
        parameters,
        output,
    )
}
