// Where a text is read.

ghost use Rattle.std.specs.Prelude.{◌≡◌, true, ◌<◌, ◌≤◌, length};
ghost use Rattle.training_file.specs.Layout.{feature_count};
ghost use Rattle.libsvm_text.specs.Places.{text_ends};

// A place in a text that ends with a newline, so that there is another place after it where its byte is none. The text's lines have
// features 1 to `used`. Nothing compares or prints one.
#[derive(Clone, Copy)]
pub struct Place<'a> {
    pub text: &'a [u8],
    pub used: usize,
    pub at: usize,
    pub ghost ends: { text_ends text.now ≡ true },
    pub ghost within: { at < length text.now },
    pub ghost few: { used ≤ feature_count },
}

// What is found at a place, and the place after it. Nothing compares or prints one.
#[derive(Clone, Copy)]
pub struct Found<T> {
    pub what: T,
    pub end: usize,
}
