// A group of a line: a feature number, a colon and a value.

ghost use Rattle.std.specs.Prelude.{◌≡◌, false, ◌+◌, ◌≤◌, drop, get_or, length, IfSome, option_map};
ghost use Rattle.training_file.specs.Item.{feature_most};
ghost use Rattle.libsvm_text.specs.Form.{value_text};
ghost use Rattle.libsvm_text.specs.Items.{signed_number};
ghost use Rattle.libsvm_text.specs.Read.{ReadsGroup, ReadsNumber, ReadsValue, leading, leading_value, leads};

use super::numeral::{is_leading, read_digits};
use super::place::{Found, Place};

// A feature number and its feature, none where the value is outside the range. Nothing compares or prints one.
#[derive(Clone, Copy)]
pub struct GroupRead {
    pub number: usize,
    pub feature: Option<i8>,
}

// The feature of a magnitude and its sign, where there is a magnitude.
fn signed(minus: bool, magnitude: Option<usize>) -> Option<i8>
    requires { IfSome magnitude (λ size. size ≤ feature_most) }
    ensures { result ≡ option_map (signed_number minus) magnitude }
{
    let feature = magnitude? as i8;
    Some(if minus { -feature } else { feature })
}

// A value whose first digit may not be the first of several: it is 0, alone and without a sign, or there is none.
fn read_zero(from: Place, minus: bool) -> Option<Found<Option<i8>>>
    requires { leads (get_or from.text.now from.at 0) ≡ false }
    ensures { let digits = leading (drop from.entry.at from.entry.text.now) in
        ReadsValue (record { minus = minus; digits = digits }) (from.entry.at + length digits) result }
{
    let Place { text, at, .. } = from;
    if minus || text[at] != b'0' || text[at + 1].is_ascii_digit() {
        return None;
    }
    Some(Found {
        what: Some(0),
        end: at + 1,
    })
}

// A value, as a feature: none where it is outside the range.
#[inline(always)]
fn read_value(from: Place) -> Option<Found<Option<i8>>>
    ensures { let value = leading_value (drop from.entry.at from.entry.text.now) in
        ReadsValue value (from.entry.at + length (value_text value)) result }
{
    let Place { text, used, at } = from;
    let minus = text[at] == b'-';
    let digits_at = if minus { at + 1 } else { at };
    let after_sign = Place {
        text,
        used,
        at: digits_at,
    };
    let Some(digits) = read_digits(after_sign) else {
        return read_zero(after_sign, minus);
    };
    Some(Found {
        what: signed(minus, digits.what),
        end: digits.end,
    })
}

// A feature number above the last one and at most `used`, with a colon after it, which is the place after it. It has two digits at most: where
// a third follows, no colon does, and no byte after it is looked at.
#[inline(always)]
fn read_number(from: Place, last: usize) -> Option<Found<usize>>
    ensures { ReadsNumber from.entry.used last from.entry.text.now from.entry.at result }
{
    let Place { text, used, at } = from;
    let first = text[at];
    if !is_leading(first) {
        return None;
    }
    let one = (first - b'0') as usize;
    let second = text[at + 1];
    let (number, end) = if second.is_ascii_digit() {
        (one * 10 + (second - b'0') as usize, at + 2)
    } else {
        (one, at + 1)
    };
    if last < number && number <= used && text[end] == b':' {
        Some(Found { what: number, end })
    } else {
        None
    }
}

// The group from the place after its space on.
#[inline(always)]
pub fn read_group(from: Place, last: usize) -> Option<Found<GroupRead>>
    ensures { ReadsGroup from.entry.used last from.entry.text.now from.entry.at result }
{
    let Place { text, used, .. } = from;
    let number = read_number(from, last)?;
    let value = read_value(Place {
        text,
        used,
        at: number.end + 1,
    })?;
    Some(Found {
        what: GroupRead {
            number: number.what,
            feature: value.what,
        },
        end: value.end,
    })
}
