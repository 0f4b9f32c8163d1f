// Decimal numbers in a text that ends with a newline. A number ends before it, so that no place past the end of the text is looked at.

ghost use Rattle.std.specs.Prelude.{◌≡◌};
ghost use Rattle.std.specs.List.{prefix_len};
ghost use Rattle.libsvm_text.specs.Form.{digit};
ghost use Rattle.libsvm_text.specs.Read.{ReadsDigits, leads, limited};

use super::place::{Found, Place};
use training_file::item::Item;

// Whether a byte is a digit that may be the first of several.
pub fn is_leading(byte: u8) -> bool
    ensures { result ≡ leads byte }
{
    matches!(byte, b'1'..=b'9')
}

// A number, none where it is past every limit: no feature and no feature number is above it.
fn limited(number: usize) -> Option<usize>
    ensures { result ≡ limited number }
{
    (number <= Item::MAX_FEATURE as usize).then_some(number)
}

// How many digits a text starts with. Few numbers are so long, so that it stays out of the way of the others.
#[inline(never)]
fn digits_in(text: &[u8]) -> usize
    ensures { result ≡ prefix_len digit text.now }
{
    text.iter().take_while(|byte| byte.is_ascii_digit()).count()
}

// The digits at a place, of which the first may be the first of several: the number that they say, none where it is past every limit. Up to the
// third they are read one by one: a loop over all of them was tried and is slower, with 1.75 times plain C's time and more on a text, where this
// took 1.05. It is inlined, as what reads values, numbers and groups is: a text then takes 0.86 of the time that it takes without.
#[inline(always)]
pub fn read_digits(from: Place) -> Option<Found<Option<usize>>>
    ensures { ReadsDigits from.entry.text.now from.entry.at result }
{
    let Place { text, at, .. } = from;
    let first = text[at];
    if !is_leading(first) {
        return None;
    }
    let one = (first - b'0') as usize;
    let second = text[at + 1];
    if !second.is_ascii_digit() {
        return Some(Found {
            what: Some(one),
            end: at + 1,
        });
    }
    let two = one * 10 + (second - b'0') as usize;
    let third = text[at + 2];
    if !third.is_ascii_digit() {
        return Some(Found {
            what: Some(two),
            end: at + 2,
        });
    }
    let three = two * 10 + (third - b'0') as usize;
    if !text[at + 3].is_ascii_digit() {
        return Some(Found {
            what: limited(three),
            end: at + 3,
        });
    }
    Some(Found {
        what: None,
        end: at + 4 + digits_in(&text[at + 4..]),
    })
}
