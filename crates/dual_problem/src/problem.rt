// The problem that a read file states, as every call on its items takes it: the file, its order and its parameters, which always go
// together. That the order is the file's is a fact of the type, so no caller has to prove it again. What a call asks of the parameters and of
// multipliers stands with the call: one asks nothing, another their ranges, their number, their size or `State`. Nothing compares or prints a problem.

ghost use Rattle.std.specs.Prelude.{length};
ghost use Rattle.dual_problem.specs.FileProblem.{Listed};

use reading::reader;
use reading::reader::{fetch, fetch_label};
use training_file::item::{Item, Label};
use training_file::parameters::Parameters;
use training_file::refusal::Refusal;

#[derive(Clone, Copy)]
pub struct FileProblem<'a> {
    pub file: &'a [u8],
    // The record number of each item, in chain order.
    pub order: &'a [u16],
    pub parameters: Parameters,
    pub ghost listed: { Listed file.now order.now (length order.now) },
}

impl<'a> FileProblem<'a> {
    ghost use Rattle.std.specs.Prelude.{◌≡◌, ◌<◌};
    ghost use Rattle.dual_problem.specs.Given.{ReadAs, count_in, item_at, label_at};

    // The problem of a file that is accepted, with a table lent for its order; of any other its refusal.
    pub fn read(
        file: &'a [u8],
        table: &'a mut [u16; Parameters::MAX_RECORDS],
    ) -> Result<FileProblem<'a>, Refusal>
        ensures { ReadAs file.now result }
    {
        let (parameters, count) = reader::order(file, table)?;
        Ok(FileProblem {
            file,
            order: &table[..count],
            parameters,
        })
    }

    // How many items there are.
    pub fn count(&self) -> usize
        ensures { result ≡ count_in self.now }
    {
        self.order.len()
    }

    // The item at a place, counted from 0.
    pub fn item(&self, place: usize) -> Item
        requires { place < count_in self.now }
        ensures { result ≡ item_at self.now place }
    {
        fetch(self.file, self.order, place)
    }

    // Its label, without its features.
    pub fn label(&self, place: usize) -> Label
        requires { place < count_in self.now }
        ensures { result ≡ label_at self.now place }
    {
        fetch_label(self.file, self.order, place)
    }
}
