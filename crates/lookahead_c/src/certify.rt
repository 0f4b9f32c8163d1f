// Certifying, for C.

ghost use Rattle.std.specs.Prelude.{◌≡◌};
ghost use Rattle.reading.specs.Reading.{reading};
ghost use Rattle.certifying.specs.Certify.{certifying};
ghost use Rattle.lookahead_c.specs.Certifying.{SeenDistance, certify_seen};

use super::refusal::RefusalNumbers;

// Both thresholds are written, or neither: a refusal leaves them as they were.
#[unsafe(no_mangle)]
pub extern "C" fn lookahead_certify(
    file: &[u8],
    multipliers: &[u32],
    lower: &mut i64,
    upper: &mut i64,
) -> RefusalNumbers
    ensures seen { record { refusal = result; found = record { lower = lower.new; upper = upper.new } }
        ≡ certify_seen (certifying file.now multipliers.now) (record { lower = lower.old; upper = upper.old }) }
    ensures distance { SeenDistance (reading file.now) multipliers.now
        (record { refusal = result; found = record { lower = lower.new; upper = upper.new } }) }
{
    match lookahead::certify::certify(file, multipliers) {
        Ok(thresholds) => {
            *lower = thresholds.lower;
            *upper = thresholds.upper;
            RefusalNumbers::NONE
        }
        Err(refusal) => RefusalNumbers::from(refusal),
    }
}
