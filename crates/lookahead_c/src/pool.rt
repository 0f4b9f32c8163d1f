// Pooling, for C.

ghost use Rattle.std.specs.Prelude.{◌≡◌, length as length_of};
ghost use Rattle.pooling.specs.Pooling.{pooling};
ghost use Rattle.lookahead_c.specs.Writing.{write_seen};

use super::refusal::RefusalNumbers;
use super::written::answer_written;

// The output is the library's to fill.
#[unsafe(no_mangle)]
pub extern "C" fn lookahead_pool(
    older: &[u8],
    newer: &[u8],
    output: &mut [u8],
    length: &mut usize,
) -> RefusalNumbers
    ensures { record { refusal = result; length = length.new; output = output.new }
        ≡ write_seen (pooling older.now newer.now (length_of output.old)) length.old output.old }
{
    answer_written(lookahead::pool::pool(older, newer, output), length)
}
