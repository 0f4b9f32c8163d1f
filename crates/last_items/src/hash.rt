// A hash of a record's features.

ghost use Rattle.std.specs.Prelude.{◌≡◌};
ghost use Rattle.last_items.specs.Kept.{hash_at, hashes_at};

use super::records::Records;
use training_file::bytes::u32_at;
use training_file::parameters::Parameters;
use training_file::record::Record;

// A number that the record's sixteen feature bytes determine.
fn hash(record: Record) -> u32
    ensures { result ≡ hash_at record.entry.file.now record.entry.number }
{
    let part = record.feature_part();
    let low = 1_000_003 * (u32_at(part, 0) as u64) + 10_000_019 * (u32_at(part, 4) as u64);
    let high = 100_000_007 * (u32_at(part, 8) as u64) + 1_000_000_007 * (u32_at(part, 12) as u64);
    ((low + high) / 65_536 % 4_294_967_296) as u32
}

// The hashes of records, put into a table.
pub fn fill_hashes<'a>(
    records: &Records,
    table: &'a mut [u32; Parameters::MAX_RECORDS],
) -> &'a [u32]
    ensures { result.now ≡ hashes_at records.now.file.now records.now.numbers.now }
{
    for (k, &number) in records.numbers.iter().enumerate() {
        table[k] = hash(Record {
            file: records.file,
            number: number as usize,
        });
    }
    &table[..records.numbers.len()]
}
