// A word to classify: its features, as many as the file has in use.

ghost use Rattle.std.specs.Prelude.{◌≡◌, ◌≤◌, length, is_some, IfSome};
ghost use Rattle.training_file.specs.Layout.{feature_count};
ghost use Rattle.classifying.specs.Classify.{SameFeatures, word_allowed};

use training_file::item::{Item, Label};

// A word as an item, which the kernels compare with the file's: features past the word's are 0. No kernel looks at the label.
pub fn word_item(word: &[i8]) -> Option<Item>
    requires { length word.now ≤ feature_count }
    ensures allowed { is_some result ≡ word_allowed word.now }
    ensures features { IfSome result (λ item. SameFeatures item.features word.now) }
{
    let mut features = [0i8; Item::FEATURE_COUNT];
    features[..word.len()].copy_from_slice(word);
    Item::new(Label::PASSED_OVER, features, word.len())
}
