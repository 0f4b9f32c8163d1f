// Training, for C.

ghost use Rattle.std.specs.Prelude.{◌≡◌};
ghost use Rattle.reading.specs.Reading.{reading};
ghost use Rattle.training.specs.Train.{train_file};
ghost use Rattle.lookahead_c.specs.Training.{SeenQuality, train_seen};

use super::numbering::ending_number;
use super::refusal::RefusalNumbers;

// The lists are the library's to fill; the four numbers are written here, and only after the library has refused nothing.
#[unsafe(no_mangle)]
pub extern "C" fn lookahead_train(
    file: &[u8],
    multipliers: &mut [u32],
    gradient: &mut [i64],
    ending: &mut u8,
    steps: &mut u32,
    lower: &mut i64,
    upper: &mut i64,
) -> RefusalNumbers
    ensures seen { record {
      refusal = result;
      multipliers = multipliers.new;
      gradient = gradient.new;
      found = record { ending = ending.new; steps = steps.new; lower = lower.new; upper = upper.new };
    }
        ≡ train_seen (train_file file.now multipliers.old gradient.old)
        (record { ending = ending.old; steps = steps.old; lower = lower.old; upper = upper.old }) }
    ensures quality { SeenQuality (reading file.now)
        (record {
          refusal = result;
          multipliers = multipliers.new;
          gradient = gradient.new;
          found = record { ending = ending.new; steps = steps.new; lower = lower.new; upper = upper.new };
        }) }
{
    match lookahead::train::train(file, multipliers, gradient) {
        Ok(trained) => {
            *ending = ending_number(trained.ending);
            *steps = trained.steps;
            *lower = trained.lower;
            *upper = trained.upper;
            RefusalNumbers::NONE
        }
        Err(refusal) => RefusalNumbers::from(refusal),
    }
}
