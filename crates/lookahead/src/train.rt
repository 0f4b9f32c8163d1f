// Training, as the modules of the reader call it.

ghost use Rattle.std.specs.Prelude.{◌≡◌};
ghost use Rattle.reading.specs.Reading.{reading};
ghost use Rattle.training.specs.Train.{TrainingQuality, train_file};

use smo::run::Trained;
use training_file::refusal::Refusal;

// Trains any file from zeros. The first n places of both lent lists hold the final multipliers and G; on a refusal both keep their
// contents.
pub fn train(file: &[u8], multipliers: &mut [u32], gradient: &mut [i64]) -> Result<Trained, Refusal>
    ensures left { record { answer = result; multipliers = multipliers.new; gradient = gradient.new }
        ≡ train_file file.now multipliers.old gradient.old }
    ensures quality { TrainingQuality (reading file.now) result multipliers.new }
{
    training::train::train(file, multipliers, gradient)
}
