// Of the items of a file, those that stay in the pool: an item stays where no later one has its features.

ghost use Rattle.std.specs.Prelude.{◌≡◌};
ghost use Rattle.last_items.specs.Kept.{FewStored, Kept, hashes_at};
ghost use Rattle.last_items.specs.Records.{items_of};

use super::hash::fill_hashes;
use super::hashed::Hashed;
use super::records::Records;
use training_file::parameters::Parameters;

// The same as `keep_last`, with the hashes of all records. A number that does not stay is put at the next place too, where the next one that
// does replaces it. The loop goes by places, since it moves the numbers within the slice that it goes over.
fn keep_hashed<'a>(
    file: &'a [u8],
    numbers: &'a mut [u16],
    hashes: &'a [u32],
    later: &Hashed,
) -> usize
    requires stored { FewStored file.now numbers.old }
    requires hashed { hashes.now ≡ hashes_at file.now numbers.old }
    ensures { Kept file.now (items_of later.now.records) numbers.old numbers.new result }
{
    let mut kept = 0;
    for k in 0..numbers.len() {
        let number = numbers[k];
        let hash = hashes[k];
        let rest = Hashed {
            records: Records {
                file,
                numbers: &numbers[k + 1..],
            },
            hashes: &hashes[k + 1..],
        };
        let repeated = rest.repeats(file, number as usize, hash)
            || later.repeats(file, number as usize, hash);
        numbers[kept] = number;
        if !repeated {
            kept += 1;
        }
    }
    kept
}

// Moves the numbers of the records that stay, where the later records follow, to the first places, and answers how many there are: a slice of these
// would be lent from the numbers, of all of which `Kept` speaks. They are no `Records`, whose numbers are only read.
pub fn keep_last<'a>(file: &'a [u8], numbers: &'a mut [u16], later: &Records) -> usize
    requires { FewStored file.now numbers.old }
    ensures { Kept file.now (items_of later.now) numbers.old numbers.new result }
{
    let mut table = [0u32; Parameters::MAX_RECORDS];
    let hashes = fill_hashes(&Records { file, numbers }, &mut table);
    let mut later_table = [0u32; Parameters::MAX_RECORDS];
    let later = Hashed {
        records: *later,
        hashes: fill_hashes(later, &mut later_table),
    };
    keep_hashed(file, numbers, hashes, &later)
}
