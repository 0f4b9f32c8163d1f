// The parameters as C and Rust have them: numbers alone, the kernel by its byte, since C has no enum that a call could be sure of.
// Nothing compares or prints these.

ghost use Rattle.std.specs.Prelude.{◌≡◌};
ghost use Rattle.lookahead_c.specs.Parameters.{parameter_numbers, parameters_answer, parameters_by};

use lookahead::{Kernel, Parameters, Refusal};

#[repr(C)]
#[derive(Clone, Copy)]
pub struct ParameterNumbers {
    pub used: usize,
    pub kernel: u8,
    pub grid: u32,
    pub ceiling: u32,
    pub second_ceiling: u32,
    pub tolerance: u64,
    pub budget: u32,
}

impl ParameterNumbers {
    // What stands for the parameters of a file that was refused: C has no option.
    pub const NONE: ParameterNumbers = ParameterNumbers {
        used: 0,
        kernel: 0,
        grid: 0,
        ceiling: 0,
        second_ceiling: 0,
        tolerance: 0,
        budget: 0,
    };

    // The parameters that the numbers say, with a kernel in the place of its byte.
    pub fn with_kernel(self, kernel: Kernel) -> Parameters
        ensures { result ≡ parameters_by self kernel }
    {
        Parameters {
            used: self.used,
            kernel,
            grid: self.grid,
            ceiling: self.ceiling,
            second_ceiling: self.second_ceiling,
            tolerance: self.tolerance,
            budget: self.budget,
        }
    }
}

impl From<Parameters> for ParameterNumbers {
    ghost from_gives = { λ parameters numbers. numbers ≡ parameter_numbers parameters };

    fn from(parameters: Parameters) -> ParameterNumbers {
        ParameterNumbers {
            used: parameters.used,
            kernel: u8::from(parameters.kernel),
            grid: parameters.grid,
            ceiling: parameters.ceiling,
            second_ceiling: parameters.second_ceiling,
            tolerance: parameters.tolerance,
            budget: parameters.budget,
        }
    }
}

// The parameters that the numbers say, or the refusal of a byte that names no kernel.
impl TryFrom<ParameterNumbers> for Parameters {
    type Error = Refusal;

    ghost try_from_gives = { λ numbers answer. answer ≡ parameters_answer numbers };

    fn try_from(numbers: ParameterNumbers) -> Result<Parameters, Refusal> {
        Ok(numbers.with_kernel(Kernel::try_from(numbers.kernel)?))
    }
}
