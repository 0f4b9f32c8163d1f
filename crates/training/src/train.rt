// Training: any file, any lent lists (document 01, "The step").

ghost use Rattle.std.specs.Prelude.{◌≡◌, ◌≤◌, length};
ghost use Rattle.training_file.specs.Parameters.{Ranges};
ghost use Rattle.reading.specs.Reading.{reading};
ghost use Rattle.dual_problem.specs.Given.{count_in};
ghost use Rattle.training.specs.Train.{TrainingQuality, train_file, train_from};

use dual_problem::gradient::fill_gradient;
use dual_problem::problem::FileProblem;
use smo::run::{Trained, run};
use training_file::parameters::Parameters;
use training_file::refusal::Refusal;

// Training on a file that was read, from zeros, with lists that are long enough.
fn train_read(problem: &FileProblem, multipliers: &mut [u32], gradient: &mut [i64]) -> Trained
    requires { Ranges problem.now.parameters × (count_in problem.now ≤ length multipliers.old) × (count_in problem.now ≤ length gradient.old) }
    ensures { record { trained = result; multipliers = multipliers.new; gradient = gradient.new }
        ≡ train_from problem.now multipliers.old gradient.old }
{
    multipliers[..problem.count()].fill(0);
    fill_gradient(problem, multipliers, gradient);
    run(problem, problem.parameters.budget, multipliers, gradient)
}

// All is judged before anything is written, so that a refusal leaves both lists as they were.
pub fn train(file: &[u8], multipliers: &mut [u32], gradient: &mut [i64]) -> Result<Trained, Refusal>
    ensures left { record { answer = result; multipliers = multipliers.new; gradient = gradient.new }
        ≡ train_file file.now multipliers.old gradient.old }
    ensures quality { TrainingQuality (reading file.now) result multipliers.new }
{
    let mut table = [0u16; Parameters::MAX_RECORDS];
    let problem = FileProblem::read(file, &mut table)?;
    if multipliers.len() < problem.count() || gradient.len() < problem.count() {
        return Err(Refusal::ListLength);
    }
    Ok(train_read(&problem, multipliers, gradient))
}
