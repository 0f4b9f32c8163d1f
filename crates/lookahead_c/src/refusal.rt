// What a call answers of a refusal outside Rattle, where there are no enums.

ghost use Rattle.std.specs.Prelude.{◌≡◌};
ghost use Rattle.lookahead_c.specs.Numbering.{refusal_numbers};

use lookahead::Refusal;

// The number of a refusal, and the record at fault, 0 where it carries none. Nothing compares or prints these.
#[repr(C)]
#[derive(Clone, Copy)]
pub struct RefusalNumbers {
    pub number: u8,
    pub at: u16,
}

impl RefusalNumbers {
    // What stands for a refusal where there is none: C has no option.
    pub const NONE: RefusalNumbers = RefusalNumbers { number: 0, at: 0 };
}

impl From<Refusal> for RefusalNumbers {
    ghost from_gives = { λ why numbers. numbers ≡ refusal_numbers why };

    fn from(refusal: Refusal) -> RefusalNumbers {
        RefusalNumbers {
            number: refusal.number(),
            at: refusal.record(),
        }
    }
}
