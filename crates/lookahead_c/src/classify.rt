// Classifying, for C.

ghost use Rattle.std.specs.Prelude.{◌≡◌};
ghost use Rattle.classifying.specs.Classify.{classifying};
ghost use Rattle.lookahead_c.specs.Classifying.{classify_seen};

use super::numbering::class_number;
use super::refusal::RefusalNumbers;

// The class is written only where there is one: a refusal leaves it as it was.
#[unsafe(no_mangle)]
pub extern "C" fn lookahead_classify(
    file: &[u8],
    multipliers: &[u32],
    word: &[i8],
    class: &mut u8,
) -> RefusalNumbers
    ensures { record { refusal = result; found = class.new }
        ≡ classify_seen (classifying file.now multipliers.now word.now) class.old }
{
    match lookahead::classify::classify(file, multipliers, word) {
        Ok(found) => {
            *class = class_number(found);
            RefusalNumbers::NONE
        }
        Err(refusal) => RefusalNumbers::from(refusal),
    }
}
