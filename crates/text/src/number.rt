// Numbers in decimal, without leading zeros.
// The caller sees to it that the buffer has room.

ghost use Rattle.buffer.specs.Put.{Put, Room};
ghost use Rattle.text.specs.Decimal.{decimal, signed_decimal};

use buffer::put::Cursor;
use itoa::{Buffer, Integer};

// What std prints of the number.
fn put_integer<I: Integer>(out: &mut Cursor, number: I)
    requires { Room (I.text number) out.old }
    ensures { Put (I.text number) out.old out.new }
{
    let mut digits = Buffer::new();
    out.put_bytes(digits.format(number).as_bytes());
}

#[tactic(auto, using(crate::proofs::Laws::Decimal::printed))]
pub fn put_number(out: &mut Cursor, number: u64)
    requires { Room (decimal number) out.old }
    ensures { Put (decimal number) out.old out.new }
{
    put_integer(out, number);
}

#[tactic(auto, using(crate::proofs::Laws::Decimal::printed_signed))]
pub fn put_signed(out: &mut Cursor, number: i64)
    requires { Room (signed_decimal number) out.old }
    ensures { Put (signed_decimal number) out.old out.new }
{
    put_integer(out, number);
}
