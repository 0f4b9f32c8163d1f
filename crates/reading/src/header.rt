// The header: the length that it promises, and the parameters that it holds.

ghost use Rattle.std.specs.Prelude.{◌≡◌, ◌≤◌, length};
ghost use Rattle.training_file.specs.declared.layout.TheConstants.{HEADER_LENGTH};
ghost use Rattle.reading.specs.Answers.{header_answer, stored_answer};

use training_file::bytes::{u16_at, u32_at, u64_at};
use training_file::layout;
use training_file::parameters::{Kernel, Parameters};
use training_file::refusal::Refusal;

// How many records are stored. Refused where the file does not have the length of its header and so many records.
#[tactic(auto, unfolding(training_file::specs::Header::length_allowed))]
pub fn count_records(file: &[u8]) -> Result<usize, Refusal>
    ensures { result ≡ stored_answer file.now }
{
    if file.len() < layout::HEADER_LENGTH {
        return Err(Refusal::FileLength);
    }
    let stored = u16_at(file, layout::RECORDS_STORED) as usize;
    if Parameters::MAX_RECORDS < stored {
        return Err(Refusal::FileLength);
    }
    if file.len() != layout::HEADER_LENGTH + layout::RECORD_LENGTH * stored {
        return Err(Refusal::FileLength);
    }
    Ok(stored)
}

// The parameters. Refused where a field is beyond its range, or a spare byte is not 0. The seven fields are named one by one here, for C and in
// settled_test: the sources are bytes that were counted, numbers, and a case that nothing has judged.
#[tactic(auto, unfolding(training_file::specs::Header::header_allowed))]
pub fn read_parameters(file: &[u8]) -> Result<Parameters, Refusal>
    requires { HEADER_LENGTH ≤ length file.now }
    ensures { result ≡ header_answer file.now }
{
    if u16_at(file, layout::RECORDS_STORED) < u16_at(file, layout::FIRST_RECORD) {
        return Err(Refusal::Header);
    }
    if u16_at(file, layout::SPARE) != 0 {
        return Err(Refusal::Header);
    }
    let parameters = Parameters {
        used: file[layout::FEATURES_IN_USE] as usize,
        kernel: Kernel::try_from(file[layout::KERNEL])?,
        grid: u32_at(file, layout::GRID),
        ceiling: u32_at(file, layout::CEILING),
        second_ceiling: u32_at(file, layout::SECOND_CEILING),
        tolerance: u64_at(file, layout::TOLERANCE),
        budget: u32_at(file, layout::BUDGET),
    };
    if !parameters.allowed() {
        return Err(Refusal::Header);
    }
    Ok(parameters)
}
