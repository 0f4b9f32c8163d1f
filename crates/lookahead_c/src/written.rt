// What every call that writes a file answers for C.

ghost use Rattle.std.specs.Prelude.{◌≡◌};
ghost use Rattle.lookahead_c.specs.Numbering.{refusal_answered};
ghost use Rattle.lookahead_c.specs.Writing.{length_after};

use super::refusal::RefusalNumbers;
use lookahead::Refusal;

// The length is written here, and only after the library has refused nothing.
pub fn answer_written(written: Result<usize, Refusal>, length: &mut usize) -> RefusalNumbers
    ensures answer { result ≡ refusal_answered written }
    ensures length { length.new ≡ length_after written length.old }
{
    match written {
        Ok(written) => {
            *length = written;
            RefusalNumbers::NONE
        }
        Err(refusal) => RefusalNumbers::from(refusal),
    }
}
