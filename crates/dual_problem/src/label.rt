// What a label decides of an item: its sign y and its ceiling.

ghost use Rattle.std.specs.Prelude.{◌≡◌, ◌≤◌, pos, nat_abs, ◌*ℤ◌};
ghost use Rattle.dual_problem.specs.Problem.{ceiling_of, sign};

use training_file::item::Label;
use training_file::parameters::Parameters;

// A number times the sign y of a label.
pub fn with_sign(number: u32, label: Label) -> i64
    ensures value { result ≡ pos number *ℤ sign label }
    ensures size { nat_abs result ≤ number }
{
    match label {
        Label::LookedUp => i64::from(number),
        Label::PassedOver => -i64::from(number),
    }
}

// The ceiling of an item with this label.
pub fn ceiling(parameters: Parameters, label: Label) -> u32
    ensures { result ≡ ceiling_of parameters label }
{
    match label {
        Label::LookedUp => parameters.ceiling,
        Label::PassedOver => {
            if parameters.second_ceiling == 0 {
                parameters.ceiling
            } else {
                parameters.second_ceiling
            }
        }
    }
}
