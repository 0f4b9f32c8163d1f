// An item in memory: what a caller of the writer hands over.

ghost use Rattle.std.specs.Prelude.{◌≡◌};
ghost use Rattle.training_file.specs.Answers.{item_answer};
ghost use Rattle.writing.specs.Row.{row_features, row_item, row_label};

use training_file::bytes::byte_of_signed;
use training_file::item::Item;

// Sixteen features, then the label's number, 1 or 2 as a record has it. It is the memory of a struct of C with these two fields.
pub const ROW_LENGTH: usize = Item::FEATURE_COUNT + 1;

pub type Row = [i8; ROW_LENGTH];

#[tactic(auto, using(crate::proofs::Laws::Row::features_taken))]
fn features(row: &Row) -> [i8; Item::FEATURE_COUNT]
    ensures { result ≡ row_features row.now }
{
    let mut features = [0; Item::FEATURE_COUNT];
    features.copy_from_slice(&row[..Item::FEATURE_COUNT]);
    features
}

fn label(row: &Row) -> u8
    ensures { result ≡ row_label row.now }
{
    byte_of_signed(row[Item::FEATURE_COUNT])
}

// The row as an item, judged with the first `used` features in use; none where it is not allowed.
pub fn judge_row(row: &Row, used: usize) -> Option<Item>
    ensures { result ≡ item_answer used (row_label row.now) (row_features row.now) }
{
    Item::new(label(row), features(row), used)
}

// The item of a row that was judged.
pub fn item_of(row: &Row) -> Item
    ensures { result ≡ row_item row.now }
{
    Item::of(label(row), features(row))
}
