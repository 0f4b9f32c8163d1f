// The parameters of training, judged as they are made. The least and the greatest value of each field stand here alone.

ghost use Rattle.std.specs.Prelude.{◌≡◌};
ghost use Rattle.training_file.specs.Parameters.{byte_of_kernel, ceilings_allowed, parameters_allowed};
ghost use Rattle.training_file.specs.Answers.{kernel_answer};

use super::item::Item;
use super::refusal::Refusal;

// Which kernel compares two items.
#[derive(Clone, Copy, Debug, PartialEq, Eq)]
pub enum Kernel {
    Linear,
    Square,
    Overlap,
}

impl Kernel {
    // The numbers are those of the file's format: a header has them for its kernel, and so has C.
    pub const LINEAR: u8 = 0;

    pub const SQUARE: u8 = 1;

    pub const OVERLAP: u8 = 2;
}

// The byte that a header has for it.
impl From<Kernel> for u8 {
    ghost from_gives = { λ kernel byte. byte ≡ byte_of_kernel kernel };

    fn from(kernel: Kernel) -> u8 {
        match kernel {
            Kernel::Linear => Kernel::LINEAR,
            Kernel::Square => Kernel::SQUARE,
            Kernel::Overlap => Kernel::OVERLAP,
        }
    }
}

// The kernel that a header names.
impl TryFrom<u8> for Kernel {
    type Error = Refusal;

    ghost try_from_gives = { λ byte answer. answer ≡ kernel_answer byte };

    fn try_from(byte: u8) -> Result<Kernel, Refusal> {
        match byte {
            Kernel::LINEAR => Ok(Kernel::Linear),
            Kernel::SQUARE => Ok(Kernel::Square),
            Kernel::OVERLAP => Ok(Kernel::Overlap),
            _ => Err(Refusal::Header),
        }
    }
}

// The public calls take any, also those that they refuse. So it has no invariant, and a function that needs `used` to be sixteen at most asks for
// that. Nothing compares or prints one whole.
#[derive(Clone, Copy)]
pub struct Parameters {
    // d, how many of an item's features are in use.
    pub used: usize,
    pub kernel: Kernel,
    // S, grid units per 1.
    pub grid: u32,
    // c, the ceiling of label +1, in grid units.
    pub ceiling: u32,
    // The ceiling of label −1, as the header has it: 0 means the same as c.
    pub second_ceiling: u32,
    // t, in grid units.
    pub tolerance: u64,
    // How many steps training may take.
    pub budget: u32,
}

impl Parameters {
    // How many records a file stores at most, on the chain or off it.
    pub const MAX_RECORDS: usize = 256;

    pub const MIN_USED: usize = 1;

    pub const MAX_USED: usize = Item::FEATURE_COUNT;

    pub const MIN_GRID: u32 = 1;

    pub const MAX_GRID: u32 = 1_048_576;

    pub const MIN_CEILING: u32 = 1;

    pub const MAX_CEILING: u32 = 65_536;

    pub const MIN_SECOND_CEILING: u32 = 0;

    pub const MAX_SECOND_CEILING: u32 = Parameters::MAX_CEILING;

    pub const MIN_TOLERANCE: u64 = 0;

    pub const MAX_TOLERANCE: u64 = 1_000_000_000_000;

    pub const MIN_BUDGET: u32 = 0;

    pub const MAX_BUDGET: u32 = 1_000_000;

    // Whether both ceilings are within their ranges.
    fn ceilings_within(ceiling: u32, second_ceiling: u32) -> bool
        ensures { result ≡ ceilings_allowed ceiling second_ceiling }
    {
        (Parameters::MIN_CEILING..=Parameters::MAX_CEILING).contains(&ceiling)
            && (Parameters::MIN_SECOND_CEILING..=Parameters::MAX_SECOND_CEILING).contains(
                &second_ceiling,
            )
    }

    // Whether each field is within its range.
    #[tactic(auto, unfolding(crate::specs::Parameters::parameters_allowed))]
    pub fn allowed(self) -> bool
        ensures { result ≡ parameters_allowed self }
    {
        (Parameters::MIN_USED..=Parameters::MAX_USED).contains(&self.used)
            && (Parameters::MIN_GRID..=Parameters::MAX_GRID).contains(&self.grid)
            && Parameters::ceilings_within(self.ceiling, self.second_ceiling)
            && (Parameters::MIN_TOLERANCE..=Parameters::MAX_TOLERANCE).contains(&self.tolerance)
            && (Parameters::MIN_BUDGET..=Parameters::MAX_BUDGET).contains(&self.budget)
    }
}
