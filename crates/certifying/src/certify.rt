// Certifying: both thresholds of any feasible multipliers of any file.

ghost use Rattle.std.specs.Prelude.{◌≡◌};
ghost use Rattle.training_file.specs.Parameters.{Ranges};
ghost use Rattle.reading.specs.Reading.{reading};
ghost use Rattle.dual_problem.specs.Given.{problem_in};
ghost use Rattle.certifying.specs.Certify.{CertifiedDistance, certify_items, certifying};

use super::multipliers::judge_multipliers;
use dual_problem::problem::FileProblem;
use thresholds::extremes::{Thresholds, find_thresholds};
use training_file::parameters::Parameters;
use training_file::refusal::Refusal;

// The multipliers of a file that was read.
fn certify_read(problem: &FileProblem, multipliers: &[u32]) -> Result<Thresholds, Refusal>
    requires { Ranges problem.now.parameters }
    ensures { result ≡ certify_items (problem_in problem.now) multipliers.now }
{
    judge_multipliers(problem, multipliers)?;
    Ok(find_thresholds(problem, multipliers))
}

// Any file and any multipliers.
pub fn certify(file: &[u8], multipliers: &[u32]) -> Result<Thresholds, Refusal>
    ensures answer { result ≡ certifying file.now multipliers.now }
    ensures distance { CertifiedDistance (reading file.now) multipliers.now result }
{
    let mut order = [0u16; Parameters::MAX_RECORDS];
    let problem = FileProblem::read(file, &mut order)?;
    certify_read(&problem, multipliers)
}
