// An item: its label with sixteen signed features. The ranges of both stand here alone.

ghost use Rattle.std.specs.Prelude.{◌≡◌};
ghost use Rattle.training_file.specs.declared.item.Label.TheVariants.{LookedUp};
ghost use Rattle.training_file.specs.Item.{byte_of_label, item_of, label_of_byte, opposite as opposite_of, same};
ghost use Rattle.training_file.specs.Item.{feature_allowed, features_allowed, label_allowed, zero_past};
ghost use Rattle.training_file.specs.Answers.{item_answer};

// What the log says of a word.
#[derive(Clone, Copy, Debug, PartialEq, Eq)]
pub enum Label {
    LookedUp,
    PassedOver,
}

impl Label {
    // The numbers are those of the file's format: a record has them for its label, and so has a row of the writer.
    pub const LOOKED_UP: u8 = 1;

    pub const PASSED_OVER: u8 = 2;

    // Whether a byte is a label's.
    fn allows(byte: u8) -> bool
        ensures { result ≡ label_allowed byte }
    {
        (Label::LOOKED_UP..=Label::PASSED_OVER).contains(&byte)
    }

    // The label that a byte stands for: one that is not looked up is passed over. Nothing rests on that of a byte that isn't allowed, so that it
    // is no `From`, which would say that every byte is a label.
    pub fn of_byte(byte: u8) -> Label
        ensures { result ≡ label_of_byte byte }
    {
        if byte == Label::LOOKED_UP {
            Label::LookedUp
        } else {
            Label::PassedOver
        }
    }

    // The other label.
    pub fn opposite(self) -> Label
        ensures { result ≡ opposite_of self }
    {
        match self {
            Label::LookedUp => Label::PassedOver,
            Label::PassedOver => Label::LookedUp,
        }
    }

    // 1 for a label that is looked up, 0 for the other: what the item adds to a count of the items looked up. It is a match, as is all that a
    // label decides.
    pub fn looked_up(self) -> usize
        ensures { result ≡ same LookedUp self }
    {
        match self {
            Label::LookedUp => 1,
            Label::PassedOver => 0,
        }
    }
}

// The byte that a record has for it.
impl From<Label> for u8 {
    ghost from_gives = { λ label byte. byte ≡ byte_of_label label };

    fn from(label: Label) -> u8 {
        match label {
            Label::LookedUp => Label::LOOKED_UP,
            Label::PassedOver => Label::PASSED_OVER,
        }
    }
}

// The features come first, so that a copy of an item moves all sixteen as one block and what is read of them next need not wait for two. Nothing
// compares or prints one whole.
#[derive(Clone, Copy)]
pub struct Item {
    pub features: [i8; Item::FEATURE_COUNT],
    pub label: Label,
}

impl Item {
    // How many features an item has, in use or not: a record has as many, and there is no heap for fewer.
    pub const FEATURE_COUNT: usize = 16;

    pub const MIN_FEATURE: i8 = -127;

    pub const MAX_FEATURE: i8 = 127;

    // Whether a feature is within its range.
    fn allows(feature: i8) -> bool
        ensures { result ≡ feature_allowed feature }
    {
        (Item::MIN_FEATURE..=Item::MAX_FEATURE).contains(&feature)
    }

    // Whether the features past the first `used` are 0: whether the last one that is not 0 is among these. A loop over all sixteen that
    // never leaves early is done in one go.
    fn zero_past(features: [i8; Item::FEATURE_COUNT], used: usize) -> bool
        ensures { result ≡ zero_past used features }
    {
        let mut end = 0;
        for (i, feature) in features.iter().enumerate() {
            if *feature != 0 {
                end = i + 1;
            }
        }
        end <= used
    }

    // Whether each feature is within its range, and those past the first `used` are 0.
    fn allows_all(features: [i8; Item::FEATURE_COUNT], used: usize) -> bool
        ensures { result ≡ features_allowed used features }
    {
        if !Item::zero_past(features, used) {
            return false;
        }
        for feature in features.iter() {
            if !Item::allows(*feature) {
                return false;
            }
        }
        true
    }

    // The item of a label's byte and features that were judged. It takes two values, and so is no `From`.
    pub fn of(label: u8, features: [i8; Item::FEATURE_COUNT]) -> Item
        ensures { result ≡ item_of label features }
    {
        Item {
            label: Label::of_byte(label),
            features,
        }
    }

    // The same of a label's byte and features of which the first `used` are in use; none where these are not allowed. Inlined, so that who judges
    // an item and asks for its label alone doesn't have the `Option` put into memory.
    #[inline(always)]
    pub fn new(label: u8, features: [i8; Item::FEATURE_COUNT], used: usize) -> Option<Item>
        ensures { result ≡ item_answer used label features }
    {
        if Label::allows(label) && Item::allows_all(features, used) {
            Some(Item::of(label, features))
        } else {
            None
        }
    }
}
