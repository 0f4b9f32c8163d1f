// Certifying, as the public library has it.

ghost use Rattle.std.specs.Prelude.{◌≡◌};
ghost use Rattle.reading.specs.Reading.{reading};
ghost use Rattle.certifying.specs.Certify.{CertifiedDistance, certifying};

use thresholds::extremes::Thresholds;
use training_file::refusal::Refusal;

// Both thresholds of any multipliers of any file, or the refusal. From the thresholds follows how far the multipliers can be from
// the best ones, which the second clause says.
pub fn certify(file: &[u8], multipliers: &[u32]) -> Result<Thresholds, Refusal>
    ensures answer { result ≡ certifying file.now multipliers.now }
    ensures distance { CertifiedDistance (reading file.now) multipliers.now result }
{
    certifying::certify::certify(file, multipliers)
}
