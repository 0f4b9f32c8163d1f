// Records of a file, by their numbers: the file and the numbers always go together.

ghost use Rattle.std.specs.Prelude.{◌≤◌, length};
ghost use Rattle.training_file.specs.Parameters.{records_most};
ghost use Rattle.last_items.specs.Kept.{AllBytes, AllStored};

// Records that stand whole in a file, as many at most as a file stores. Nothing compares or prints these.
#[derive(Clone, Copy)]
pub struct Records<'a> {
    pub file: &'a [u8],
    pub numbers: &'a [u16],
    pub ghost bytes: { AllBytes file.now },
    pub ghost few: { length numbers.now ≤ records_most },
    pub ghost stored: { AllStored file.now numbers.now },
}
