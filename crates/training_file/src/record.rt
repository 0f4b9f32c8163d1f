// One record of the file: its next number, its feature bytes as a part of the file, its judgement, and its item.

ghost use Rattle.std.specs.Prelude.{◌≡◌};
ghost use Rattle.training_file.specs.Layout.{feature_bytes, label_byte, next_of, record_start};
ghost use Rattle.training_file.specs.Record.{Stored, features_at, item_at, label_at};
ghost use Rattle.training_file.specs.Answers.{item_answer, record_answer};

use super::bytes::{signed_byte, u16_at};
use super::item::{Item, Label};
use super::layout;
use super::refusal::Refusal;

// The record of a number, which stands whole in the borrowed file: `reading` has judged the file's length. Nothing compares or prints one.
#[derive(Clone, Copy)]
pub struct Record<'a> {
    pub file: &'a [u8],
    pub number: usize,
    ghost stored: { Stored file.now number },
}

impl<'a> Record<'a> {
    // Where it starts in the file.
    fn start(self) -> usize
        ensures { result ≡ record_start self.entry.number }
    {
        layout::HEADER_LENGTH + layout::RECORD_LENGTH * (self.number - 1)
    }

    // The number of the record that follows, 0 where the chain ends.
    pub fn next(self) -> usize
        ensures { result ≡ next_of self.entry.file.now self.entry.number }
    {
        u16_at(self.file, self.start() + layout::NEXT) as usize
    }

    // Its sixteen feature bytes, where they stand in the file.
    pub fn feature_part(self) -> &'a [u8]
        ensures { result.now ≡ feature_bytes self.entry.file.now self.entry.number }
    {
        let from = self.start() + layout::FEATURES;
        &self.file[from..from + Item::FEATURE_COUNT]
    }

    // Its sixteen features.
    fn features(self) -> [i8; Item::FEATURE_COUNT]
        ensures { result ≡ features_at self.entry.file.now self.entry.number }
    {
        let part = self.feature_part();
        let mut features = [0i8; Item::FEATURE_COUNT];
        for (i, byte) in part.iter().enumerate() {
            features[i] = signed_byte(*byte);
        }
        features
    }

    // Its label's byte, whatever it is.
    fn label_byte(self) -> u8
        ensures { result ≡ label_byte self.entry.file.now self.entry.number }
    {
        self.file[self.start() + layout::LABEL]
    }

    // Its label and features as an item, judged with the first `used` features in use.
    fn read_item(self, used: usize) -> Option<Item>
        ensures { result ≡ item_answer used (label_byte self.entry.file.now self.entry.number) (features_at self.entry.file.now self.entry.number) }
    {
        Item::new(self.label_byte(), self.features(), used)
    }

    // Its label, where it is on the chain and its bytes are all allowed.
    #[tactic(auto, unfolding(crate::specs::Record::record_allowed))]
    pub fn judge(self, used: usize) -> Result<Label, Refusal>
        ensures { result ≡ record_answer used self.entry.file.now self.entry.number }
    {
        if self.file[self.start() + layout::ZERO] != 0 {
            return Err(Refusal::Record);
        }
        let item = self.read_item(used).ok_or(Refusal::Record)?;
        Ok(item.label)
    }

    // Its label, once it was judged.
    pub fn label(self) -> Label
        ensures { result ≡ label_at self.entry.file.now self.entry.number }
    {
        Label::of_byte(self.label_byte())
    }

    // Its item, once it was judged.
    pub fn item(self) -> Item
        ensures { result ≡ item_at self.entry.file.now self.entry.number }
    {
        Item::of(self.label_byte(), self.features())
    }
}
