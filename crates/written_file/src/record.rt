// A record of a training file, put into a lent output.

ghost use Rattle.std.specs.Prelude.{◌≡◌, ◌≤◌};
ghost use Rattle.buffer.specs.Put.{Put, Room};
ghost use Rattle.training_file.specs.Parameters.{records_most};
ghost use Rattle.written_file.specs.Fields.{signed_bytes};
ghost use Rattle.written_file.specs.File.{following as following_record, item_record};

use buffer::put::Cursor;
use training_file::bytes::byte_of_signed;
use training_file::item::Item;

// The number of the record that follows the first `put` of so many records, 0 after the last. That there are no more than a file has is a clause of
// each function that takes their number: a struct around one number would be made and taken apart in each.
pub fn following(records: usize, put: usize) -> u16
    requires { records ≤ records_most }
    ensures { result ≡ following_record records put }
{
    if put < records { (put + 1) as u16 } else { 0 }
}

// The bytes that hold the features.
fn feature_bytes(features: &[i8; Item::FEATURE_COUNT]) -> [u8; Item::FEATURE_COUNT]
    ensures { result ≡ signed_bytes features.now }
{
    let mut bytes = [0u8; Item::FEATURE_COUNT];
    for (i, &feature) in features.iter().enumerate() {
        bytes[i] = byte_of_signed(feature);
    }
    bytes
}

// The record of an item, with the number of the record that follows it.
// Rows, numbers of records and lines of a text each have their own loop over it, of three lines: one loop for all would take a closure and a
// ghost list of the items that it gives, and be longer. It is inlined, as `put_header` and `put_rows` are: the cursor's place then need not be stored
// and read back at each put.
#[inline(always)]
pub fn put_record(out: &mut Cursor, next: u16, item: Item)
    requires { Room (item_record next item) out.old }
    ensures { Put (item_record next item) out.old out.new }
{
    out.put_bytes(&next.to_le_bytes());
    out.put_byte(item.label.into());
    out.put_byte(0);
    // All sixteen are put in one go: put one by one, each waits for the place that the last has left, and writing took three times as long.
    out.put_bytes(&feature_bytes(&item.features));
}
