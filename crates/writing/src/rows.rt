// The rows that a caller hands over, judged, and put into the output as records.

ghost use Rattle.std.specs.Prelude.{◌≡◌, ◌≤◌, length};
ghost use Rattle.buffer.specs.Put.{Put, Room};
ghost use Rattle.training_file.specs.Parameters.{records_most};
ghost use Rattle.written_file.specs.File.{item_records};
ghost use Rattle.writing.specs.Row.{row_items, rows_answer};

use super::row::{Row, item_of, judge_row};
use buffer::put::Cursor;
use training_file::refusal::Refusal;
use written_file::record::{following, put_record};

// How many of the items are looked up. Refused where one is not allowed.
// A chain's file, a text and rows are each judged in a loop of their own, since an item is found in another way in each.
pub fn judge_rows(rows: &[Row], used: usize) -> Result<usize, Refusal>
    ensures { result ≡ rows_answer used rows.now }
{
    let mut looked_up = 0;
    for row in rows {
        let item = judge_row(row, used).ok_or(Refusal::Record)?;
        looked_up += item.label.looked_up();
    }
    Ok(looked_up)
}

// The records of judged rows, one after the other.
#[inline(always)]
pub fn put_rows(out: &mut Cursor, rows: &[Row])
    requires room { Room (item_records (row_items rows.now) (length rows.now) (length rows.now)) out.old }
    requires most { length rows.now ≤ records_most }
    ensures { Put (item_records (row_items rows.now) (length rows.now) (length rows.now)) out.old out.new }
{
    for (k, row) in rows.iter().enumerate() {
        put_record(out, following(rows.len(), k + 1), item_of(row));
    }
}
