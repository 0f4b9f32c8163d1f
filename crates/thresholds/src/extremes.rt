// The up set, the low set, where the two thresholds are attained, and the thresholds (document 01, "Grid definitions").

ghost use Rattle.std.specs.Prelude.{◌≡◌, ◌≤◌, ◌<◌, length};
ghost use Rattle.dual_problem.specs.Problem.{in_up, at};
ghost use Rattle.reading.specs.Calls.{Tabled};
ghost use Rattle.dual_problem.specs.FileProblem.{problem_of};
ghost use Rattle.dual_problem.specs.Given.{MultipliersFit, count_in, problem_in};
ghost use Rattle.thresholds.specs.Extremes.{extremes_in, sets_of, thresholds_in, thresholds_of};

use dual_problem::gradient::fill_gradient;
use dual_problem::label::ceiling;
use dual_problem::problem::FileProblem;
use reading::reader::fetch_label;
use training_file::item::Label;
use training_file::parameters::Parameters;

// Whether an item with this multiplier and ceiling is in the up set.
fn in_up(label: Label, multiplier: u32, ceiling: u32) -> bool
    ensures { result ≡ in_up label multiplier ceiling }
{
    match label {
        Label::LookedUp => multiplier < ceiling,
        Label::PassedOver => 0 < multiplier,
    }
}

// Whether an item is in either set. `Sets`, `Extremes` and `Thresholds` are not one generic pair: the definitions and the callers know each by the
// names of its fields. None of the four types here is compared or printed whole.
#[derive(Clone, Copy)]
pub struct Sets {
    pub low: bool,
    pub up: bool,
}

// The sets of the item at a place. The low set is the up set of the opposite label. It takes the parts of a problem, since it asks of the file's
// order no more than this place.
pub fn sets_at(
    file: &[u8],
    order: &[u16],
    parameters: Parameters,
    multipliers: &[u32],
    place: usize,
) -> Sets
    requires { Tabled file.now order.now place × (place < length multipliers.now) }
    ensures { result ≡ sets_of (problem_of file.now parameters) (at multipliers.now) place }
{
    let label = fetch_label(file, order, place);
    let most = ceiling(parameters, label);
    let multiplier = multipliers[place];
    Sets {
        low: in_up(label.opposite(), multiplier, most),
        up: in_up(label, multiplier, most),
    }
}

// A place with its value: of the places so far the one of the least value, or of the greatest.
#[derive(Clone, Copy)]
pub struct Best {
    pub place: usize,
    pub value: i64,
}

// Where the lower threshold is attained, in the low set, and the upper one, in the up set.
#[derive(Clone, Copy)]
pub struct Extremes {
    pub low: Option<Best>,
    pub up: Option<Best>,
}

impl Extremes {
    // Both thresholds, where these are the extremes of G. That of an empty set is 0, by the definition.
    pub fn thresholds(self) -> Thresholds
        ensures { result ≡ thresholds_in self }
    {
        Thresholds {
            lower: self.low.map_or(0, |best| best.value),
            upper: self.up.map_or(0, |best| best.value),
        }
    }
}

// One pass over the items for both, with G of each from a list; of equal values the one found first stays, where `max_by` keeps the last.
pub fn find_extremes(problem: &FileProblem, multipliers: &[u32], gradient: &[i64]) -> Extremes
    requires { (count_in problem.now ≤ length multipliers.now) × (count_in problem.now ≤ length gradient.now) }
    ensures { result ≡ extremes_in problem.now multipliers.now gradient.now }
{
    let mut low: Option<Best> = None;
    let mut up: Option<Best> = None;
    for place in 0..problem.count() {
        let sets = sets_at(
            problem.file,
            problem.order,
            problem.parameters,
            multipliers,
            place,
        );
        let value = gradient[place];
        if sets.low && low.is_none_or(|best| best.value < value) {
            low = Some(Best { place, value });
        }
        if sets.up && up.is_none_or(|best| value < best.value) {
            up = Some(Best { place, value });
        }
    }
    Extremes { low, up }
}

// b_low and b_up.
#[derive(Clone, Copy)]
pub struct Thresholds {
    pub lower: i64,
    pub upper: i64,
}

// Both thresholds of multipliers that were judged. G is worked out here, so that no list has to be lent for it.
pub fn find_thresholds(problem: &FileProblem, multipliers: &[u32]) -> Thresholds
    requires { MultipliersFit problem.now multipliers.now }
    ensures { result ≡ thresholds_of (problem_in problem.now) (at multipliers.now) }
{
    let mut gradient = [0i64; Parameters::MAX_RECORDS];
    fill_gradient(problem, multipliers, &mut gradient);
    find_extremes(problem, multipliers, &gradient).thresholds()
}
