// The gradient G of the objective, from its definition (document 01, "Grid definitions").

ghost use Rattle.std.specs.Prelude.{◌≡◌, ◌*◌, ◌≤◌, ◌<◌, length, pos, nat_abs, ◌*ℤ◌};
ghost use Rattle.integers.specs.Written.{written};
ghost use Rattle.training_file.specs.Layout.{feature_count};
ghost use Rattle.training_file.specs.Parameters.{ceiling_most};
ghost use Rattle.dual_problem.specs.Size.{gradient_most, kernel_most, term_most, weighed_most};
ghost use Rattle.dual_problem.specs.Problem.{gradient as gradient_of, sign, at};
ghost use Rattle.dual_problem.specs.FileProblem.{added, weighed_with};
ghost use Rattle.dual_problem.specs.Given.{MultipliersFit, count_in, problem_in};

use super::kernel::kernel_value;
use super::label::with_sign;
use super::problem::FileProblem;
use training_file::item::{Item, Label};

// What one item adds to G: its multiplier, with its label's sign, times a kernel value.
fn term(multiplier: u32, label: Label, kernel: i64) -> i64
    requires { (multiplier ≤ ceiling_most) × (nat_abs kernel ≤ kernel_most) }
    ensures value { result ≡ pos multiplier *ℤ sign label *ℤ kernel }
    ensures size { nat_abs result ≤ term_most }
{
    with_sign(multiplier, label) * kernel
}

// What the item at a place adds to the weighed sum. One with multiplier 0 adds nothing, and isn't fetched.
fn addend(problem: &FileProblem, multiplier: u32, x: Item, place: usize) -> i64
    requires { (place < count_in problem.now) × (multiplier ≤ ceiling_most) × (problem.now.parameters.used ≤ feature_count) }
    ensures value { result ≡ added problem.now.file.now problem.now.parameters x.features multiplier place }
    ensures size { nat_abs result ≤ term_most }
{
    if multiplier == 0 {
        return 0;
    }
    let z = problem.item(place);
    term(multiplier, z.label, kernel_value(problem.parameters, x, z))
}

// The kernel values of an item with each item of the file, weighed with the multipliers and the labels' signs. The loop goes over a copy of the
// problem: behind the reference the kernel would be looked up, and chosen by, at each item, and not once ahead of the loop.
pub fn weighed_sum(problem: &FileProblem, multipliers: &[u32], x: Item) -> i64
    requires { MultipliersFit problem.now multipliers.now }
    ensures value { result ≡ weighed_with problem.now.file.now problem.now.parameters x.features (at multipliers.now) }
    ensures size { nat_abs result ≤ weighed_most }
{
    let problem = *problem;
    let mut sum: i64 = 0;
    for j in 0..problem.count() {
        sum += addend(&problem, multipliers[j], x, j);
    }
    sum
}

// G of the item at a place.
pub fn gradient_at(problem: &FileProblem, multipliers: &[u32], place: usize) -> i64
    requires { MultipliersFit problem.now multipliers.now × (place < count_in problem.now) }
    ensures value { result ≡ gradient_of (problem_in problem.now) (at multipliers.now) place }
    ensures size { nat_abs result ≤ gradient_most }
{
    let x = problem.item(place);
    weighed_sum(problem, multipliers, x) - with_sign(problem.parameters.grid, x.label)
}

// Writes G of each item into the first places of a lent list; later places keep theirs.
pub fn fill_gradient(problem: &FileProblem, multipliers: &[u32], gradient: &mut [i64])
    requires { MultipliersFit problem.now multipliers.now × (count_in problem.now ≤ length gradient.old) }
    ensures { gradient.new
        ≡ written (count_in problem.now) (gradient_of (problem_in problem.now) (at multipliers.now)) gradient.old }
{
    for i in 0..problem.count() {
        gradient[i] = gradient_at(problem, multipliers, i);
    }
}
