// The public calls: a training file of any length and content is read, or refused with a number. `fetch` and `fetch_label` are for the
// crates above, which have read the file.

ghost use Rattle.std.specs.Prelude.{◌≡◌, get_or};
ghost use Rattle.training_file.specs.Item.{item_in};
ghost use Rattle.reading.specs.Reading.{reading};
ghost use Rattle.reading.specs.Calls.{Tabled, items_in, file_answer, table_after};

use super::header;
use chain::walks;
use training_file::item::{Item, Label};
use training_file::parameters::Parameters;
use training_file::record::Record;
use training_file::refusal::Refusal;

// The parameters and the number of items of any file, or the refusal.
pub fn read(file: &[u8]) -> Result<(Parameters, usize), Refusal>
    ensures { result ≡ file_answer (reading file.now) }
{
    header::count_records(file)?;
    let parameters = header::read_parameters(file)?;
    let items = walks::walk(file)?;
    let looked_up = walks::judge_records(file, items, parameters.used)?;
    if looked_up == 0 || looked_up == items {
        return Err(Refusal::Labels);
    }
    Ok((parameters, items))
}

// The same, with the record numbers in chain order written into the first places of the table, as many as it has places for.
// On a refusal the table keeps its contents.
pub fn order(file: &[u8], table: &mut [u16]) -> Result<(Parameters, usize), Refusal>
    ensures answer { result ≡ file_answer (reading file.now) }
    ensures table { table.new ≡ table_after (reading file.now) table.old }
{
    let (parameters, items) = read(file)?;
    walks::fill(file, items, table);
    Ok((parameters, items))
}

// The record at a place of the order, counted from 0, of a file that was accepted and whose order the table holds.
fn record_at<'a>(file: &'a [u8], table: &[u16], place: usize) -> Record<'a>
    requires { Tabled file.now table.now place }
    ensures { (result.file ≡ file.entry) × (result.number ≡ get_or table.now place 0) }
{
    Record {
        file,
        number: table[place] as usize,
    }
}

// The item at a place of the order, counted from 0, of a file that was accepted and whose order the table holds.
pub fn fetch(file: &[u8], table: &[u16], place: usize) -> Item
    requires { Tabled file.now table.now place }
    ensures { result ≡ item_in (items_in (reading file.now)) place }
{
    record_at(file, table, place).item()
}

// The label of that item, without its features.
pub fn fetch_label(file: &[u8], table: &[u16], place: usize) -> Label
    requires { Tabled file.now table.now place }
    ensures { result ≡ (item_in (items_in (reading file.now)) place).label }
{
    record_at(file, table, place).label()
}
