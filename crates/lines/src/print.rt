// The lines of the listing, as bytes in a lent buffer. What a `Display` writes is known of a `String` alone, and this project has no heap.

ghost use Rattle.std.specs.Prelude.{[], ◌∷◌, ◌≡◌, ◌<◌, ◌≤◌, length};
ghost use Rattle.buffer.specs.Put.{Put, Room};
ghost use Rattle.dual_problem.specs.Given.{count_in};
ghost use Rattle.lines.specs.Lines.{
  ending_text,
  field,
  item_line,
  items_with_total,
  label_sign,
  record_field,
  refusal_line,
  result_line,
  shown_in,
  signed_field,
  total_line,
};

use buffer::put::Cursor;
use dual_problem::problem::FileProblem;
use smo::ending::Ending;
use smo::run::Trained;
use text::number::{put_number, put_signed};
use totals::sums::{Shown, Totals};
use training_file::item::Label;
use training_file::refusal::Refusal;

// A space and a number.
fn put_field(out: &mut Cursor, number: u64)
    requires { Room (field number) out.old }
    ensures { Put (field number) out.old out.new }
{
    out.put_byte(b' ');
    put_number(out, number);
}

// A space and a number that may be negative. Two functions, as of the numbers themselves: after one for both, each line would have to show
// which text its number has.
fn put_signed_field(out: &mut Cursor, number: i64)
    requires { Room (signed_field number) out.old }
    ensures { Put (signed_field number) out.old out.new }
{
    out.put_byte(b' ');
    put_signed(out, number);
}

// The record that a refusal carries; nothing where it carries none, of which 0 tells, as for C.
fn put_record(out: &mut Cursor, number: u16)
    requires { Room (record_field number) out.old }
    ensures { Put (record_field number) out.old out.new }
{
    if number != 0 {
        put_field(out, u64::from(number));
    }
}

// A refusal is the whole listing: its number, and its record where it carries one.
pub fn put_refusal(out: &mut Cursor, refusal: Refusal)
    requires { Room (refusal_line refusal) out.old }
    ensures { Put (refusal_line refusal) out.old out.new }
{
    out.put_bytes(b"refused");
    put_field(out, u64::from(refusal.number()));
    put_record(out, refusal.record());
    out.put_bytes(b"\n");
}

// Why training ended, in lower case letters.
fn put_ending(out: &mut Cursor, ending: Ending)
    requires { Room (ending_text ending) out.old }
    ensures { Put (ending_text ending) out.old out.new }
{
    match ending {
        Ending::Converged => out.put_bytes(b"converged"),
        Ending::Stuck => out.put_bytes(b"stuck"),
        Ending::Spent => out.put_bytes(b"spent"),
    }
}

// Line one: the ending, the steps, b_low and b_up.
#[tactic(auto, unfolding(crate::specs::Lines::result_line))]
pub fn put_result(out: &mut Cursor, trained: Trained)
    requires { Room (result_line trained) out.old }
    ensures { Put (result_line trained) out.old out.new }
{
    let Trained {
        ending,
        steps,
        lower,
        upper,
    } = trained;
    put_ending(out, ending);
    put_field(out, u64::from(steps));
    put_signed_field(out, lower);
    put_signed_field(out, upper);
    out.put_bytes(b"\n");
}

// The label's sign between two spaces.
fn put_label(out: &mut Cursor, label: Label)
    requires { Room (32 ∷ label_sign label ∷ 32 ∷ []) out.old }
    ensures { Put (32 ∷ label_sign label ∷ 32 ∷ []) out.old out.new }
{
    match label {
        Label::LookedUp => out.put_bytes(b" + "),
        Label::PassedOver => out.put_bytes(b" - "),
    }
}

// The line of an item: its record number, its label and its multiplier.
#[tactic(auto, unfolding(crate::specs::Lines::item_line))]
fn put_item(out: &mut Cursor, shown: Shown)
    requires { Room (item_line shown) out.old }
    ensures { Put (item_line shown) out.old out.new }
{
    put_number(out, u64::from(shown.number));
    put_label(out, shown.label);
    put_number(out, u64::from(shown.multiplier));
    out.put_bytes(b"\n");
}

// The last line: how many multipliers are above 0, and their sums over label +1 and over label -1.
#[tactic(auto, unfolding(crate::specs::Lines::total_line))]
fn put_total(out: &mut Cursor, totals: Totals)
    requires { Room (total_line totals) out.old }
    ensures { Put (total_line totals) out.old out.new }
{
    out.put_bytes(b"total");
    put_field(out, totals.count);
    put_field(out, totals.plus);
    put_field(out, totals.minus);
    out.put_bytes(b"\n");
}

// What the line of the item at a place shows.
fn shown(problem: &FileProblem, multipliers: &[u32], place: usize) -> Shown
    requires { (place < count_in problem.now) × (count_in problem.now ≤ length multipliers.now) }
    ensures { result ≡ shown_in problem.now.file.now multipliers.now place }
{
    Shown {
        number: problem.order[place],
        label: problem.label(place),
        multiplier: multipliers[place],
    }
}

// A line for each item, in chain order, and the totals of these lines: each line's numbers are added as the line is put.
pub fn put_items(problem: &FileProblem, multipliers: &[u32], out: &mut Cursor)
    requires { (count_in problem.now ≤ length multipliers.now)
        × Room (items_with_total (count_in problem.now) (shown_in problem.now.file.now multipliers.now)) out.old }
    ensures { Put (items_with_total (count_in problem.now) (shown_in problem.now.file.now multipliers.now)) out.old out.new }
{
    let mut totals = Totals::default();
    for place in 0..problem.count() {
        let line = shown(problem, multipliers, place);
        put_item(out, line);
        totals += Totals::from(line);
    }
    put_total(out, totals);
}
