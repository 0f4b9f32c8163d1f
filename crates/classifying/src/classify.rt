// Classifying: whether a word is one to be looked up, by a training file and multipliers (document 01, "The step", and document 02, (e)).

ghost use Rattle.std.specs.Prelude.{◌≡◌};
ghost use Rattle.training_file.specs.Parameters.{Ranges};
ghost use Rattle.reading.specs.Reading.{reading};
ghost use Rattle.reading.specs.Calls.{items_in};
ghost use Rattle.dual_problem.specs.Problem.{at};
ghost use Rattle.classifying.specs.Classify.{Scorable, class_of, classify_items, classifying, score_with};

use super::word::word_item;
use certifying::multipliers::judge_multipliers;
use dual_problem::gradient::weighed_sum;
use dual_problem::problem::FileProblem;
use std::cmp::Ordering;
use thresholds::extremes::{Thresholds, find_thresholds};
use training_file::item::Item;
use training_file::parameters::Parameters;
use training_file::refusal::Refusal;

// What classifying says of a word. A label is what the log says of one, so this is an enum of its own. What to do with an undecided word is
// the caller's choice.
#[derive(Clone, Copy, Debug, PartialEq, Eq)]
pub enum Class {
    LookedUp,
    PassedOver,
    Undecided,
}

impl Class {
    // The class of a doubled score. It is no `From`: not every number is a score.
    pub fn of_score(score: i64) -> Class
        ensures { result ≡ class_of score }
    {
        match score.cmp(&0) {
            Ordering::Greater => Class::LookedUp,
            Ordering::Equal => Class::Undecided,
            Ordering::Less => Class::PassedOver,
        }
    }
}

// The doubled score of a word, with the thresholds of the multipliers, which the caller has worked out.
fn find_score(problem: &FileProblem, multipliers: &[u32], thresholds: Thresholds, word: Item) -> i64
    requires { Scorable problem.now multipliers.now thresholds }
    ensures { result ≡ score_with problem.now.parameters (items_in (reading problem.now.file.now)) (at multipliers.now) thresholds word.features }
{
    2 * weighed_sum(problem, multipliers, word) - (thresholds.lower + thresholds.upper)
}

// A word by the multipliers of a file that was read. The word's length and the number of multipliers are refused with one number,
// so that the word's can be tested ahead of the judging, which tests the other.
fn classify_read(problem: &FileProblem, multipliers: &[u32], word: &[i8]) -> Result<Class, Refusal>
    requires { Ranges problem.now.parameters }
    ensures { result ≡ classify_items problem.now.parameters (items_in (reading problem.now.file.now)) multipliers.now word.now }
{
    if word.len() != problem.parameters.used {
        return Err(Refusal::ListLength);
    }
    judge_multipliers(problem, multipliers)?;
    let item = word_item(word).ok_or(Refusal::WordFeature)?;
    let thresholds = find_thresholds(problem, multipliers);
    Ok(Class::of_score(find_score(problem, multipliers, thresholds, item)))
}

// Any file, any multipliers and any word.
pub fn classify(file: &[u8], multipliers: &[u32], word: &[i8]) -> Result<Class, Refusal>
    ensures { result ≡ classifying file.now multipliers.now word.now }
{
    let mut table = [0u16; Parameters::MAX_RECORDS];
    let problem = FileProblem::read(file, &mut table)?;
    classify_read(&problem, multipliers, word)
}
