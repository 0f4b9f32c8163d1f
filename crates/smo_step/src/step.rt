// One move of a pair (document 01, "The step"): of the two multipliers, and with them of G of every item.

ghost use Rattle.std.specs.Prelude.{◌≡◌, ◌+◌, ◌*◌, ◌≤◌, nat_abs};
ghost use Rattle.integers.specs.Written.{written};
ghost use Rattle.training_file.specs.Parameters.{Ranges, ceiling_most};
ghost use Rattle.dual_problem.specs.Size.{gradient_most, kernel_most, term_most};
ghost use Rattle.dual_problem.specs.Given.{count_in, problem_in};
ghost use Rattle.working_pair.specs.Step.{Candidate, raised, rise};
ghost use Rattle.working_pair.specs.State.{State};
ghost use Rattle.smo_step.specs.Update.{stepped, stepped_gradient, shifted, updated, Updatable};

use dual_problem::kernel::kernel_of_features;
use dual_problem::problem::FileProblem;
use training_file::item::{Item, Label};
use working_pair::amount::{Holding, pair_amount};

// What becomes of a multiplier where it times y rises by the amount. Where it falls, it rises under the opposite label.
fn raise(label: Label, multiplier: u32, amount: u32) -> u32
    requires { amount ≤ rise label multiplier ceiling_most }
    ensures { result ≡ raised label multiplier amount }
{
    match label {
        Label::LookedUp => multiplier + amount,
        Label::PassedOver => multiplier - amount,
    }
}

// G of an item after a move: the amount times the kernel value with the item at j less the one with the item at i is added.
fn shift(value: i64, amount: u32, kernel_j: i64, kernel_i: i64) -> i64
    requires { (nat_abs value ≤ gradient_most) × (amount ≤ ceiling_most)
        × (nat_abs kernel_j ≤ kernel_most) × (nat_abs kernel_i ≤ kernel_most) }
    ensures value { result ≡ shifted value amount kernel_j kernel_i }
    ensures size { nat_abs result ≤ gradient_most + 2 * term_most }
{
    value + i64::from(amount) * (kernel_j - kernel_i)
}

// Brings G of each item up to date after the item x moved down and the item z up by the amount; later places keep theirs.
fn update_gradient(problem: &FileProblem, gradient: &mut [i64], x: Item, z: Item, amount: u32)
    requires { Updatable problem.now gradient.old amount }
    ensures { gradient.new
        ≡ written (count_in problem.now) (updated problem.now x.features z.features amount gradient.old) gradient.old }
{
    for k in 0..problem.count() {
        let features = problem.item(k).features;
        gradient[k] = shift(
            gradient[k],
            amount,
            kernel_of_features(problem.parameters, &z.features, &features),
            kernel_of_features(problem.parameters, &x.features, &features),
        );
    }
}

// One step: the move of a candidate pair by its amount. It lowers the multiplier at i, times y, and raises the one at j. The two lists are
// no struct with the fact `State` (as `Standing`, which only reads them): between the two writes that fact doesn't hold of them.
pub fn take_step(
    problem: &FileProblem,
    multipliers: &mut [u32],
    gradient: &mut [i64],
    i: usize,
    j: usize,
)
    requires { State problem.now multipliers.old gradient.old × Ranges problem.now.parameters
        × Candidate (problem_in problem.now) multipliers.old i j }
    ensures multipliers { multipliers.new ≡ stepped (problem_in problem.now) multipliers.old i j }
    ensures gradient { gradient.new
        ≡ stepped_gradient (problem_in problem.now) multipliers.old i j (count_in problem.now) gradient.old }
{
    let x = Holding::at(problem, multipliers, i);
    let z = Holding::at(problem, multipliers, j);
    let amount = pair_amount(problem.parameters, x, z, gradient[i] - gradient[j]);
    multipliers[i] = raise(x.item.label.opposite(), x.multiplier, amount);
    multipliers[j] = raise(z.item.label, z.multiplier, amount);
    update_gradient(problem, gradient, x.item, z.item, amount);
}
