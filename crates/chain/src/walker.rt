// A walk along the chain as a value: the borrowed file, the number reached, and how many records were met. Its methods are thin: each
// makes the walker or takes it on, and leaves the work to `link`, on slice and numbers. Nothing compares or prints one.

ghost use Rattle.std.specs.Prelude.{◌≡◌, ◌+◌, ◌<◌, ◌^◌};
ghost use Rattle.training_file.specs.Layout.{first_record};
ghost use Rattle.training_file.specs.Header.{WholeFile};
ghost use Rattle.chain.specs.Answers.{link_at, link_next};

use super::link;
use super::link::Link;

#[derive(Clone, Copy)]
pub struct Walker<'a> {
    pub file: &'a [u8],
    pub number: usize,
    pub met: usize,
    ghost whole: { WholeFile file.now },
}

impl<'a> Walker<'a> {
    // The walk where it starts: at the header's number, with no record met.
    pub fn start(file: &'a [u8]) -> Walker<'a>
        requires { WholeFile file.now }
        ensures { (result.file ≡ file.entry) × (result.number ≡ first_record file.now) × (result.met ≡ 0) }
    {
        Walker {
            file,
            number: link::first(file),
            met: 0,
        }
    }

    // What the walk finds where it stands: the chain's end, a number over those stored, or the next number.
    pub fn link(self) -> Link
        ensures { result ≡ link_at self.entry.file.now self.entry.number self.entry.met }
    {
        link::link_at(self.file, self.number, self.met)
    }

    // The walk at the number that it found next, with one more met.
    pub fn step_to(self, next: usize) -> Walker<'a>
        requires { self.met + 1 < 2 ^ 64 }
        ensures { (result.file ≡ self.entry.file) × (result.number ≡ next) × (result.met ≡ self.entry.met + 1) }
    {
        Walker {
            file: self.file,
            number: next,
            met: self.met + 1,
        }
    }

    // The walk at the next record. Where it finds no record to go on from, its number becomes 0.
    pub fn advance(self) -> Walker<'a>
        requires { self.met + 1 < 2 ^ 64 }
        ensures { (result.file ≡ self.entry.file) × (result.number ≡ link_next (link_at self.entry.file.now self.entry.number self.entry.met))
            × (result.met ≡ self.entry.met + 1) }
    {
        self.step_to(link::next_at(self.file, self.number, self.met))
    }
}
