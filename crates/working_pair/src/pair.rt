// The working pair: the two places that a step moves (document 01, "The step").

ghost use Rattle.std.specs.Prelude.{◌≡◌, ◌<◌};
ghost use Rattle.dual_problem.specs.Given.{count_in, problem_in};
ghost use Rattle.thresholds.specs.Extremes.{extremes_in};
ghost use Rattle.working_pair.specs.Step.{first_candidate, working_pair};
ghost use Rattle.working_pair.specs.State.{State};
ghost use Rattle.working_pair.specs.Pair.{first_partner, pair_of, partner_of};

use super::row::Row;
use super::standing::Standing;
use dual_problem::problem::FileProblem;
use thresholds::extremes::Extremes;

// The first j of the up set with which i moves.
fn first_partner(standing: Standing, i: usize) -> Option<usize>
    requires { i < count_in standing.problem.now }
    ensures { result ≡ partner_of (first_partner (problem_in standing.entry.problem.now) standing.entry.multipliers.now i) }
{
    let row = Row::new(standing, i);
    (0..standing.problem.count()).find(|&j| row.has_partner(j))
}

// The first pair that moves, by rising i, then rising j: the fallback. Outside the low set no partner is sought. `find_map` would need a closure with
// both tests and the search in it, and be no shorter.
fn first_candidate(standing: Standing) -> Option<(usize, usize)>
    ensures { result ≡ pair_of (first_candidate (problem_in standing.entry.problem.now) standing.entry.multipliers.now) }
{
    for i in 0..standing.problem.count() {
        if standing.sets_at(i).low
            && let Some(j) = first_partner(standing, i)
        {
            return Some((i, j));
        }
    }
    None
}

// The pair that a step moves: that of the two thresholds where it moves, and otherwise the fallback. `extremes` is what
// `find_extremes` answers, which the caller has at hand, since it tests the thresholds before each step.
pub fn working_pair(
    problem: &FileProblem,
    multipliers: &[u32],
    gradient: &[i64],
    extremes: Extremes,
) -> Option<(usize, usize)>
    requires state { State problem.now multipliers.now gradient.now }
    requires extremes { extremes ≡ extremes_in problem.now multipliers.now gradient.now }
    ensures { result ≡ pair_of (working_pair (problem_in problem.now) multipliers.now) }
{
    let standing = Standing {
        problem,
        multipliers,
        gradient,
    };
    let i = extremes.low?.place;
    let j = extremes.up?.place;
    if Row::new(standing, i).moves_with(j) {
        return Some((i, j));
    }
    first_candidate(standing)
}
