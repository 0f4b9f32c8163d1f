// By how much a pair of items moves (document 01, "The step"): how far the two multipliers can go, and of that the amount with the
// lowest objective, by one division.

ghost use Rattle.std.specs.Prelude.{◌≡◌, ◌*◌, ◌≤◌, ◌<◌, pos, nat_abs, ◌≤ℤ◌, length};
ghost use Rattle.dual_problem.specs.Size.{curvature_most, gradient_most};
ghost use Rattle.dual_problem.specs.Given.{count_in};
ghost use Rattle.working_pair.specs.Step.{rise};
ghost use Rattle.working_pair.specs.Division.{PairGiven, Within, amount_between, divided, holding_at, room_between};

use super::curvature::curvature;
use dual_problem::label::ceiling;
use dual_problem::problem::FileProblem;
use training_file::item::{Item, Label};
use training_file::parameters::Parameters;

// An item with its multiplier. Nothing compares or prints one.
#[derive(Clone, Copy)]
pub struct Holding {
    pub item: Item,
    pub multiplier: u32,
}

impl Holding {
    // Those at a place.
    pub fn at(problem: &FileProblem, multipliers: &[u32], place: usize) -> Holding
        requires { (place < count_in problem.now) × (place < length multipliers.now) }
        ensures { result ≡ holding_at problem.now multipliers.now place }
    {
        Holding {
            item: problem.item(place),
            multiplier: multipliers[place],
        }
    }
}

// How far a multiplier times y can rise. It can fall as far as it can rise under the opposite label.
fn can_rise(label: Label, multiplier: u32, ceiling: u32) -> u32
    requires { multiplier ≤ ceiling }
    ensures { result ≡ rise label multiplier ceiling }
{
    match label {
        Label::LookedUp => ceiling - multiplier,
        Label::PassedOver => multiplier,
    }
}

// r, the room of a pair: as far as the first item's multiplier times y can fall while the second one's rises.
fn room(parameters: Parameters, x: Holding, z: Holding) -> u32
    requires { Within parameters x × Within parameters z }
    ensures { result ≡ room_between parameters x z }
{
    let falls = can_rise(
        x.item.label.opposite(),
        x.multiplier,
        ceiling(parameters, x.item.label),
    );
    let rises = can_rise(
        z.item.label,
        z.multiplier,
        ceiling(parameters, z.item.label),
    );
    falls.min(rises)
}

// The whole number nearest to g / η, the lower one of two, but no more than the room; the room where η is 0. Neither g nor η is
// negative for a pair that moves, so the division is one of unsigned numbers.
fn amount(slope: i64, curvature: i64, room: u32) -> u32
    requires { (pos 0 ≤ℤ slope) × (nat_abs slope ≤ 2 * gradient_most) × (pos 0 ≤ℤ curvature) × (nat_abs curvature ≤ curvature_most) }
    ensures { result ≡ divided (nat_abs slope) (nat_abs curvature) room }
{
    if curvature == 0 {
        return room;
    }
    let g = slope as u64;
    let eta = curvature as u64;
    u64::from(room).min((2 * g + eta - 1) / (2 * eta)) as u32
}

// The amount of a pair's move, from the two items with their multipliers and g.
pub fn pair_amount(parameters: Parameters, x: Holding, z: Holding, slope: i64) -> u32
    requires { PairGiven parameters x z slope }
    ensures { result ≡ amount_between parameters x z slope }
{
    amount(
        slope,
        curvature(parameters, x.item, z.item),
        room(parameters, x, z),
    )
}
