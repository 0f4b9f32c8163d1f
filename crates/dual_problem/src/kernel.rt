// Kernel values of two items, over the features in use (document 01, "Grid definitions", and document 02, request (i)). Each says how
// large it can be, so that whoever adds kernel values up knows that the sum fits.

ghost use Rattle.std.specs.Prelude.{◌≡◌, ◌*◌, ◌≤◌, length, ◌*ℤ◌, nat_abs};
ghost use Rattle.training_file.specs.Layout.{feature_count, signed_most};
ghost use Rattle.dual_problem.specs.Size.{feature_sum_most, kernel_most};
ghost use Rattle.dual_problem.specs.Kernel.{kernel_between, over_features, raised_feature, smaller_raised, summand as summand_of};

use training_file::item::Item;
use training_file::parameters::{Kernel, Parameters};

fn product(x: i8, z: i8) -> i32
    ensures { result ≡ x *ℤ z }
{
    i32::from(x) * i32::from(z)
}

// By so much the overlap kernel raises a feature, so that the least, −127, becomes 0.
const RAISED_BY: i32 = 127;

fn raised_feature(feature: i8) -> i32
    ensures { result ≡ raised_feature feature }
{
    i32::from(feature) + RAISED_BY
}

// The smaller of two features, each first raised by 127.
fn smaller_raised(x: i8, z: i8) -> i32
    ensures { result ≡ smaller_raised x z }
{
    raised_feature(x).min(raised_feature(z))
}

// What two features add to the sum that a kernel is of. At 32 bits, which a sum of sixteen such fits: the loop over them took less than
// half the time that it took at 64.
fn summand(kernel: Kernel, x: i8, z: i8) -> i32
    ensures value { result ≡ summand_of kernel x z }
    ensures size { nat_abs result ≤ signed_most * signed_most }
{
    match kernel {
        Kernel::Linear | Kernel::Square => product(x, z),
        Kernel::Overlap => smaller_raised(x, z),
    }
}

// The sum that a kernel is of, over the features in use: one loop, since the kernel is the same at each place and the compiler takes the
// choice out of it.
fn feature_sum(kernel: Kernel, used: usize, xs: &[i8], zs: &[i8]) -> i64
    requires { (used ≤ feature_count) × (used ≤ length xs.now) × (used ≤ length zs.now) }
    ensures value { result ≡ over_features (summand_of kernel) used xs.now zs.now }
    ensures size { nat_abs result ≤ feature_sum_most }
{
    let mut sum: i32 = 0;
    for p in 0..used {
        sum += summand(kernel, xs[p], zs[p]);
    }
    i64::from(sum)
}

// K of two items whose features are lent: neither is copied, however many kernel values it goes into. The sum is asked for in each arm, so
// that the compiler makes one choice for the loop and for what follows it. The kernel has a name, since three places ask for it.
pub fn kernel_of_features(parameters: Parameters, xs: &[i8], zs: &[i8]) -> i64
    requires { (parameters.used ≤ feature_count) × (parameters.used ≤ length xs.now) × (parameters.used ≤ length zs.now) }
    ensures value { result ≡ kernel_between parameters xs.now zs.now }
    ensures size { nat_abs result ≤ kernel_most }
{
    let kernel = parameters.kernel;
    match kernel {
        Kernel::Linear | Kernel::Overlap => feature_sum(kernel, parameters.used, xs, zs),
        Kernel::Square => {
            let sum = feature_sum(kernel, parameters.used, xs, zs);
            (sum + 1) * (sum + 1)
        }
    }
}

// K of two items, as document 01 has it: thin, over the function on lent features. These are lent from arrays of their own, since for
// `&x.features` the whole item is copied.
pub fn kernel_value(parameters: Parameters, x: Item, z: Item) -> i64
    requires { parameters.used ≤ feature_count }
    ensures value { result ≡ kernel_between parameters x.features z.features }
    ensures size { nat_abs result ≤ kernel_most }
{
    let xs = x.features;
    let zs = z.features;
    kernel_of_features(parameters, &xs, &zs)
}
