// Judging multipliers against the items of a read file (document 01, refusals 6 to 8).

ghost use Rattle.std.specs.Prelude.{◌≡◌, ◌≤◌, length};
ghost use Rattle.dual_problem.specs.Problem.{at};
ghost use Rattle.dual_problem.specs.Given.{count_in, problem_in};
ghost use Rattle.certifying.specs.Multipliers.{balance, judgement, within_ceilings};

use dual_problem::label::{ceiling, with_sign};
use dual_problem::problem::FileProblem;
use training_file::refusal::Refusal;

// Whether no multiplier is over its item's ceiling.
fn within_ceilings(problem: &FileProblem, multipliers: &[u32]) -> bool
    requires { count_in problem.now ≤ length multipliers.now }
    ensures { result ≡ within_ceilings (count_in problem.now) (problem_in problem.now) (at multipliers.now) }
{
    (0..problem.count()).all(|place| {
        let most = ceiling(problem.parameters, problem.label(place));
        multipliers[place] <= most
    })
}

// The sum of the multipliers, each with its label's sign.
fn signed_sum(problem: &FileProblem, multipliers: &[u32]) -> i64
    requires { count_in problem.now ≤ length multipliers.now }
    ensures { result ≡ balance (problem_in problem.now) (at multipliers.now) }
{
    let mut sum: i64 = 0;
    for i in 0..problem.count() {
        sum += with_sign(multipliers[i], problem.label(i));
    }
    sum
}

// Whether the multipliers are feasible; the first refusal that applies to them, where they are not.
pub fn judge_multipliers(problem: &FileProblem, multipliers: &[u32]) -> Result<(), Refusal>
    ensures { result ≡ judgement (problem_in problem.now) multipliers.now }
{
    if multipliers.len() != problem.count() {
        return Err(Refusal::ListLength);
    }
    if !within_ceilings(problem, multipliers) {
        return Err(Refusal::Multiplier);
    }
    if signed_sum(problem, multipliers) != 0 {
        return Err(Refusal::Balance);
    }
    Ok(())
}
