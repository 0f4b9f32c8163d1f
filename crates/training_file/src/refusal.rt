// The refusals of documents 01 and 02. They all stand in this one list, in the order of their numbers.

ghost use Rattle.std.specs.Prelude.{◌≡◌};
ghost use Rattle.training_file.specs.Refusal.{number_of, record_of};

#[derive(Clone, Copy, Debug, PartialEq, Eq)]
pub enum Refusal {
    // What whoever wrote the file can cause.
    FileLength,
    Header,
    // A next number over m, with the record that has it.
    NextOver(u16),
    Record,
    Labels,
    // What the caller can cause: a lent list, multipliers or a word of the wrong length.
    ListLength,
    Multiplier,
    Balance,
    WordFeature,
    // An output shorter than the file to be written.
    Output,
    // What whoever wrote the text can cause. A text that is not of the form which is imported.
    Text,
    // A text of more than 256 lines.
    Lines,
    // What the caller can cause who pools two files. Files that differ in the features in use or in the kernel.
    Unlike,
    // A pool of more than 256 items.
    Pool,
    // Whoever wrote the file, again. A next number that leads to a record already met, with the record that has it.
    NextMet(u16),
}

impl Refusal {
    // The number by which the documents, the printed listing and the calls for C name it.
    pub fn number(self) -> u8
        ensures { result ≡ number_of self }
    {
        match self {
            Refusal::FileLength => 1,
            Refusal::Header => 2,
            Refusal::NextOver(_) => 3,
            Refusal::Record => 4,
            Refusal::Labels => 5,
            Refusal::ListLength => 6,
            Refusal::Multiplier => 7,
            Refusal::Balance => 8,
            Refusal::WordFeature => 9,
            Refusal::Output => 10,
            Refusal::Text => 11,
            Refusal::Lines => 12,
            Refusal::Unlike => 14,
            Refusal::Pool => 15,
            Refusal::NextMet(_) => 16,
        }
    }

    // The record at fault; 0 where the refusal carries none, since records are numbered from 1. It is no option: C and the test programs show
    // the 0, and the listing alone leaves it out.
    pub fn record(self) -> u16
        ensures { result ≡ record_of self }
    {
        match self {
            Refusal::NextOver(record) | Refusal::NextMet(record) => record,
            _ => 0,
        }
    }
}
