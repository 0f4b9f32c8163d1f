// Classifying, as the modules of the reader call it.

ghost use Rattle.std.specs.Prelude.{◌≡◌};
ghost use Rattle.classifying.specs.Classify.{classifying};

use classifying::classify::Class;
use training_file::refusal::Refusal;

// Whether a word is one to be looked up, one to be passed over or undecided, by any multipliers of any file, or the refusal.
pub fn classify(file: &[u8], multipliers: &[u32], word: &[i8]) -> Result<Class, Refusal>
    ensures { result ≡ classifying file.now multipliers.now word.now }
{
    classifying::classify::classify(file, multipliers, word)
}
