// Reading, for C.

ghost use Rattle.std.specs.Prelude.{◌≡◌};
ghost use Rattle.reading.specs.Reading.{reading};
ghost use Rattle.reading.specs.Calls.{file_answer, table_after};
ghost use Rattle.lookahead_c.specs.Reading.{read_answer};

use super::parameters::ParameterNumbers;
use super::refusal::RefusalNumbers;

// It is answered by value: on a refusal nothing lent is written. After a refusal the other numbers are 0. Nothing compares or prints one.
#[repr(C)]
#[derive(Clone, Copy)]
pub struct ReadAnswer {
    pub refusal: RefusalNumbers,
    pub items: usize,
    pub parameters: ParameterNumbers,
}

// The table is the library's to fill.
#[unsafe(no_mangle)]
pub extern "C" fn lookahead_read(file: &[u8], order: &mut [u16]) -> ReadAnswer
    ensures answer { result ≡ read_answer (file_answer (reading file.now)) }
    ensures order { order.new ≡ table_after (reading file.now) order.old }
{
    match lookahead::read::read(file, order) {
        Ok((parameters, items)) => ReadAnswer {
            refusal: RefusalNumbers::NONE,
            items,
            parameters: ParameterNumbers::from(parameters),
        },
        Err(refusal) => ReadAnswer {
            refusal: RefusalNumbers::from(refusal),
            items: 0,
            parameters: ParameterNumbers::NONE,
        },
    }
}
