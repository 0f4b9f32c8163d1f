// The pairs of one place i: whether each moves, with what is worked out once for all of them at hand.

ghost use Rattle.working_pair.specs.Pair.{Held};

use super::curvature::curvature_with;
use super::standing::Standing;
use dual_problem::kernel::kernel_of_features;
use training_file::item::Item;

// The place i, the features of its item and K_ii.
#[derive(Drop)]
pub struct Row<'a> {
    standing: Standing<'a>,
    place: usize,
    features: [i8; Item::FEATURE_COUNT],
    kernel: i64,
    ghost held: { Held standing.problem.now place features kernel },
}

impl<'a> Row<'a> {
    ghost use Rattle.std.specs.Prelude.{◌≡◌, ◌<◌};
    ghost use Rattle.dual_problem.specs.Given.{count_in, problem_in};
    ghost use Rattle.working_pair.specs.Step.{moves};
    ghost use Rattle.working_pair.specs.Pair.{partners};

    // The item is fetched, and K_ii worked out, once for all j.
    pub fn new(standing: Standing<'a>, place: usize) -> Row<'a>
        requires { place < count_in standing.problem.now }
        ensures standing { result.standing ≡ standing.entry }
        ensures place { result.place ≡ place }
    {
        let features = standing.problem.item(place).features;
        let kernel = kernel_of_features(standing.problem.parameters, &features, &features);
        Row {
            standing,
            place,
            features,
            kernel,
        }
    }

    // Whether the pair of i and j moves. No square is negative, so a pair with G_i ≤ G_j does not, and item j need not be fetched.
    pub fn moves_with(&self, j: usize) -> bool
        requires { j < count_in self.now.standing.problem.now }
        ensures { result
            ≡ moves (problem_in self.now.standing.problem.now) self.now.standing.multipliers.now self.now.place j }
    {
        let slope = self.standing.gradient[self.place] - self.standing.gradient[j];
        if slope <= 0 {
            return false;
        }
        let zs = self.standing.problem.item(j).features;
        let eta = curvature_with(
            self.standing.problem.parameters,
            self.kernel,
            &self.features,
            &zs,
        );
        eta < 2 * slope
    }

    // Whether j is in the up set, and the pair moves.
    pub fn has_partner(&self, j: usize) -> bool
        requires { j < count_in self.now.standing.problem.now }
        ensures { result
            ≡ partners (problem_in self.now.standing.problem.now) self.now.standing.multipliers.now self.now.place j }
    {
        self.standing.sets_at(j).up && self.moves_with(j)
    }
}
