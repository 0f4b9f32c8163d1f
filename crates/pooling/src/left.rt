// The items left of both files, judged, and put into the output.

ghost use Rattle.std.specs.Prelude.{◌≡◌, ◌+◌, ◌≤◌, length};
ghost use Rattle.buffer.specs.Put.{Put, Room};
ghost use Rattle.training_file.specs.declared.item.Label.TheVariants.{LookedUp};
ghost use Rattle.training_file.specs.Layout.{feature_count};
ghost use Rattle.training_file.specs.Parameters.{records_most};
ghost use Rattle.training_file.specs.Item.{both_labels, labelled};
ghost use Rattle.training_file.specs.Record.{Stored, label_at as label_of};
ghost use Rattle.written_file.specs.Output.{output_after, written_answer};
ghost use Rattle.last_items.specs.Records.{items_of};
ghost use Rattle.pooling.specs.Pooling.{write_left};
ghost use Rattle.pooling.specs.Left.{both_left, records_from};

use buffer::put::Cursor;
use last_items::records::Records;
use training_file::item::Label;
use training_file::parameters::Parameters;
use training_file::record::Record;
use training_file::refusal::Refusal;
use written_file::header::put_header;
use written_file::output::file_length;
use written_file::record::{following, put_record};

// The label of a record that was judged. It is a function, since a closure that makes a `Record` needs a clause of its own.
fn label_at(file: &[u8], number: usize) -> Label
    requires { Stored file.now number }
    ensures { result ≡ label_of file.now number }
{
    Record { file, number }.label()
}

// How many of the records are of items looked up.
fn count_looked_up(records: &Records) -> usize
    ensures { result ≡ labelled LookedUp (items_of records.now) }
{
    records
        .numbers
        .iter()
        .filter(|&&number| label_at(records.file, number as usize) == Label::LookedUp)
        .count()
}

// Whether there are items of both labels among the records left of both files.
fn have_both_labels(older: &Records, newer: &Records) -> bool
    ensures { result ≡ both_labels (both_left older.now newer.now) }
{
    let looked_up = count_looked_up(older) + count_looked_up(newer);
    0 < looked_up && looked_up < older.numbers.len() + newer.numbers.len()
}

// The items of records, put as records of so many in all, of which some stand before them.
fn put_items(out: &mut Cursor, left: &Records, before: usize, records: usize)
    requires room { Room (records_from records before (items_of left.now)) out.old }
    requires most { (before + length left.now.numbers.now ≤ records) × (records ≤ records_most) }
    ensures { Put (records_from records before (items_of left.now)) out.old out.new }
{
    for (k, &number) in left.numbers.iter().enumerate() {
        let record = Record {
            file: left.file,
            number: number as usize,
        };
        put_record(out, following(records, before + k + 1), record.item());
    }
}

// The file of the items left, the older file's first. They are refused where a label has none, and where there are too many.
pub fn write_left(
    older: &Records,
    newer: &Records,
    parameters: Parameters,
    output: &mut [u8],
) -> Result<usize, Refusal>
    requires { parameters.used ≤ feature_count }
    ensures answer { result ≡ written_answer (write_left (length output.old) parameters (both_left older.now newer.now)) }
    ensures output { output.new ≡ output_after (write_left (length output.old) parameters (both_left older.now newer.now)) output.old }
{
    if !have_both_labels(older, newer) {
        return Err(Refusal::Labels);
    }
    let left = older.numbers.len() + newer.numbers.len();
    if Parameters::MAX_RECORDS < left {
        return Err(Refusal::Pool);
    }
    let length = file_length(left, output.len())?;
    let mut out = Cursor {
        bytes: output,
        at: 0,
    };
    put_header(&mut out, left, parameters);
    put_items(&mut out, older, 0, left);
    put_items(&mut out, newer, older.numbers.len(), left);
    Ok(length)
}
