// η, the curvature of the objective along a pair's move (document 01, "The step").

ghost use Rattle.std.specs.Prelude.{◌≡◌, ◌*◌, ◌≤◌, nat_abs};
ghost use Rattle.training_file.specs.Layout.{feature_count};
ghost use Rattle.dual_problem.specs.Size.{curvature_most};
ghost use Rattle.working_pair.specs.Curvature.{FeaturesGiven, curvature_between};

use dual_problem::kernel::kernel_of_features;
use training_file::item::Item;
use training_file::parameters::Parameters;

// η of two items by their features, with K of the first and itself, which a search works out once for all the pairs of an item.
pub fn curvature_with(parameters: Parameters, kernel_xx: i64, xs: &[i8], zs: &[i8]) -> i64
    requires { FeaturesGiven parameters kernel_xx xs.now zs.now }
    ensures { (result ≡ curvature_between parameters xs.now zs.now) × (nat_abs result ≤ curvature_most) }
{
    kernel_xx + kernel_of_features(parameters, zs, zs) - 2 * kernel_of_features(parameters, xs, zs)
}

// η of two items of which no kernel value is at hand: K of the first, and the function above.
pub fn curvature(parameters: Parameters, x: Item, z: Item) -> i64
    requires { parameters.used ≤ feature_count }
    ensures { (result ≡ curvature_between parameters x.features z.features) × (nat_abs result ≤ curvature_most) }
{
    let kernel_xx = kernel_of_features(parameters, &x.features, &x.features);
    curvature_with(parameters, kernel_xx, &x.features, &z.features)
}
