// Where a run stands: the problem, its multipliers and G of each item, by which the pair is chosen that moves next. Nothing
// compares or prints one.

ghost use Rattle.working_pair.specs.State.{State};

use dual_problem::problem::FileProblem;
use thresholds::extremes::{Sets, sets_at};

#[derive(Clone, Copy)]
pub struct Standing<'a> {
    pub problem: &'a FileProblem<'a>,
    pub multipliers: &'a [u32],
    pub gradient: &'a [i64],
    pub ghost state: { State problem.now multipliers.now gradient.now },
}

impl Standing<'_> {
    ghost use Rattle.std.specs.Prelude.{◌≡◌, ◌<◌};
    ghost use Rattle.dual_problem.specs.Problem.{at};
    ghost use Rattle.dual_problem.specs.Given.{count_in, problem_in};
    ghost use Rattle.thresholds.specs.Extremes.{sets_of};

    // The sets of the item at a place.
    pub fn sets_at(self, place: usize) -> Sets
        requires { place < count_in self.problem.now }
        ensures { result ≡ sets_of (problem_in self.entry.problem.now) (at self.entry.multipliers.now) place }
    {
        let problem = self.problem;
        sets_at(
            problem.file,
            problem.order,
            problem.parameters,
            self.multipliers,
            place,
        )
    }
}
