// Records with a hash of each one's features. Records with other hashes have other features, so that none is compared where none has the hash
// that is sought. Nothing compares or prints a `Hashed`.

ghost use Rattle.std.specs.Prelude.{◌≡◌};
ghost use Rattle.training_file.specs.Layout.{feature_count};
ghost use Rattle.training_file.specs.Record.{Stored, item_at};
ghost use Rattle.last_items.specs.Last.{repeated, same_features};
ghost use Rattle.last_items.specs.Kept.{hash_at, hashes_at};
ghost use Rattle.last_items.specs.Records.{items_of};

use super::records::Records;
use training_file::bytes::u64_at;
use training_file::record::Record;

#[derive(Clone, Copy)]
pub struct Hashed<'a> {
    pub records: Records<'a>,
    pub hashes: &'a [u32],
    pub ghost hashed: { hashes.now ≡ hashes_at records.file.now records.numbers.now },
}

impl Hashed<'_> {
    // Whether one of these records has the features of a record, whose hash this is. Mostly none has its hash, which `contains` tells of many
    // at a time. Where one has, all are compared: to test each one's hash again costs more than the first eight bytes.
    pub fn repeats(&self, file: &[u8], number: usize, hash: u32) -> bool
        requires stored { Stored file.now number }
        requires hashed { hash ≡ hash_at file.now number }
        ensures { result ≡ repeated feature_count (item_at file.now number) (items_of self.now.records) }
    {
        let records = self.records;
        let mut numbers = records.numbers.iter();
        self.hashes.contains(&hash)
            && numbers.any(|&other| same_features(file, number, records.file, other as usize))
    }
}

// Whether two records have the same features: all sixteen bytes, where they stand in the files. Those that are not in use are 0 in both.
// They are compared as two numbers of eight bytes each: `==` of two slices is a call of a loop over their bytes.
// Each is a file and a number, not a `Record`: that bytes are below 256 is known of a slice that is a parameter, and not of one in a struct.
fn same_features(left: &[u8], a: usize, right: &[u8], b: usize) -> bool
    requires { Stored left.now a × Stored right.now b }
    ensures { result ≡ same_features feature_count (item_at left.now a) (item_at right.now b) }
{
    let left = Record {
        file: left,
        number: a,
    };
    let right = Record {
        file: right,
        number: b,
    };
    let xs = left.feature_part();
    let zs = right.feature_part();
    u64_at(xs, 0) == u64_at(zs, 0) && u64_at(xs, 8) == u64_at(zs, 8)
}
