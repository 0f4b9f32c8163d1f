// One link of the chain, on slice and numbers. `walks` asks for it through `walker`, whose type says that the file is whole: as its methods these
// would be no shorter.

ghost use Rattle.std.specs.Prelude.{◌≡◌};
ghost use Rattle.training_file.specs.Layout.{first_record};
ghost use Rattle.training_file.specs.Header.{WholeFile};
ghost use Rattle.chain.specs.Answers.{link_at, link_next};

use training_file::bytes::u16_at;
use training_file::layout;
use training_file::record::Record;

// What the walk finds at a number, which tells how it goes on. Nothing compares or prints one.
#[derive(Clone, Copy)]
pub enum Link {
    // The number is 0, which ends the chain, with so many records met.
    Ended(usize),
    // The number is over those stored.
    Over,
    // The number is a record's, and this is the record's next number.
    Next(usize),
}

impl Link {
    // The number that the link leads to. One that leads to none gives 0, which is the format's own number for none: of an option the walker would
    // make this 0 again.
    pub fn next(self) -> usize
        ensures { result ≡ link_next self }
    {
        match self {
            Link::Ended(_) | Link::Over => 0,
            Link::Next(next) => next,
        }
    }
}

// The number at which the chain starts.
pub fn first(file: &[u8]) -> usize
    requires { WholeFile file.now }
    ensures { result ≡ first_record file.now }
{
    u16_at(file, layout::FIRST_RECORD) as usize
}

// The link at a number, with so many records met before it.
pub fn link_at(file: &[u8], number: usize, met: usize) -> Link
    requires { WholeFile file.now }
    ensures { result ≡ link_at file.now number met }
{
    if number == 0 {
        return Link::Ended(met);
    }
    let stored = u16_at(file, layout::RECORDS_STORED) as usize;
    if stored < number {
        return Link::Over;
    }
    Link::Next(Record { file, number }.next())
}

// The number that the link there leads to.
pub fn next_at(file: &[u8], number: usize, met: usize) -> usize
    requires { WholeFile file.now }
    ensures { result ≡ link_next (link_at file.now number met) }
{
    link_at(file, number, met).next()
}
