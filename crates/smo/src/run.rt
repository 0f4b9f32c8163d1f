// The run: moves one working pair after the other until it converges, is stuck, or has taken as many steps as it may (document 01, "The
// step").

ghost use Rattle.std.specs.Prelude.{◌≡◌};
ghost use Rattle.training_file.specs.Parameters.{Ranges};
ghost use Rattle.dual_problem.specs.Given.{problem_in};
ghost use Rattle.thresholds.specs.Extremes.{extremes_in};
ghost use Rattle.working_pair.specs.State.{State};
ghost use Rattle.smo.specs.Run.{decision};
ghost use Rattle.smo.specs.Answers.{run_from, trained_with};

use super::ending::Ending;
use dual_problem::problem::FileProblem;
use smo_step::step::take_step;
use std::ops::ControlFlow;
use thresholds::extremes::{Extremes, find_extremes};
use working_pair::pair::working_pair;

// How a run ended: the ending, the steps taken, b_low and b_up.
#[derive(Clone, Copy, Debug, PartialEq, Eq)]
pub struct Trained {
    pub ending: Ending,
    pub steps: u32,
    pub lower: i64,
    pub upper: i64,
}

impl Trained {
    fn new(ending: Ending, steps: u32, found: Extremes) -> Trained
        ensures { result ≡ trained_with ending steps found }
    {
        let thresholds = found.thresholds();
        Trained {
            ending,
            steps,
            lower: thresholds.lower,
            upper: thresholds.upper,
        }
    }
}

// What is done before a step: the run breaks off with an ending, or continues with a pair that moves. Converged is tested before the
// search for a pair.
fn decide(
    problem: &FileProblem,
    multipliers: &[u32],
    gradient: &[i64],
    found: Extremes,
) -> ControlFlow<Ending, (usize, usize)>
    requires { State problem.now multipliers.now gradient.now × Ranges problem.now.parameters
        × (found ≡ extremes_in problem.now multipliers.now gradient.now) }
    ensures { result ≡ decision (problem_in problem.now) problem.now.parameters.tolerance multipliers.now }
{
    let thresholds = found.thresholds();
    if thresholds.lower <= thresholds.upper + 2 * (problem.parameters.tolerance as i64) {
        return ControlFlow::Break(Ending::Converged);
    }
    match working_pair(problem, multipliers, gradient, found) {
        Some(pair) => ControlFlow::Continue(pair),
        None => ControlFlow::Break(Ending::Stuck),
    }
}

// From the multipliers handed in, with G of each item in the other list, at most `limit` steps. That they are spent is looked at after the
// search for a pair.
pub fn run(
    problem: &FileProblem,
    limit: u32,
    multipliers: &mut [u32],
    gradient: &mut [i64],
) -> Trained
    requires { State problem.now multipliers.old gradient.old × Ranges problem.now.parameters }
    ensures { record { trained = result; multipliers = multipliers.new; gradient = gradient.new }
        ≡ run_from problem.now limit multipliers.old gradient.old }
{
    for steps in 0..limit {
        let found = find_extremes(problem, multipliers, gradient);
        match decide(problem, multipliers, gradient, found) {
            ControlFlow::Break(ending) => return Trained::new(ending, steps, found),
            ControlFlow::Continue((i, j)) => take_step(problem, multipliers, gradient, i, j),
        }
    }
    let found = find_extremes(problem, multipliers, gradient);
    let decision = decide(problem, multipliers, gradient, found);
    Trained::new(
        decision.break_value().unwrap_or(Ending::Spent),
        limit,
        found,
    )
}
