// The numbers that stand for an ending and for a class outside Rattle, where there are no enums. They are of the C interface alone, so that
// neither enum has them, and each list stands here as include/lookahead.h has it.

ghost use Rattle.std.specs.Prelude.{◌≡◌};
ghost use Rattle.lookahead_c.specs.Numbering.{class_number, ending_number};

use lookahead::{Class, Ending};

pub fn ending_number(ending: Ending) -> u8
    ensures { result ≡ ending_number ending }
{
    match ending {
        Ending::Converged => 1,
        Ending::Stuck => 2,
        Ending::Spent => 3,
    }
}

pub fn class_number(class: Class) -> u8
    ensures { result ≡ class_number class }
{
    match class {
        Class::LookedUp => 1,
        Class::PassedOver => 2,
        Class::Undecided => 3,
    }
}
