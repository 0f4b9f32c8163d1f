// The chain, walked over the borrowed file record by record: once to see that it ends, and that it meets no record twice, once to judge its
// records, and once to write down its order. Each link is asked of the walker.

ghost use Rattle.std.specs.Prelude.{◌≡◌};
ghost use Rattle.training_file.specs.Header.{WholeFile};
ghost use Rattle.chain.specs.Chain.{chain_of};
ghost use Rattle.chain.specs.Answers.{Chained, judge_answer, order_of, table_with, walk_answer};

use super::link::Link;
use super::walker::Walker;
use training_file::parameters::Parameters;
use training_file::record::Record;
use training_file::refusal::Refusal;

// A place for each record number, and one for 0, which is none. The records met are marks in an array, since a set takes the heap.
const MARKS: usize = Parameters::MAX_RECORDS + 1;

// How many records are on the chain. Refused where the next field of the last record met is over those stored, or leads to a record that has
// its mark, which each gets when it is met.
pub fn walk(file: &[u8]) -> Result<usize, Refusal>
    requires { WholeFile file.now }
    ensures { result ≡ walk_answer (chain_of file.now) }
{
    let mut marks = [false; MARKS];
    let mut last = 0;
    let mut walker = Walker::start(file);
    loop {
        match walker.link() {
            Link::Ended(count) => {
                return Ok(count);
            }
            Link::Over => {
                return Err(Refusal::NextOver(last as u16));
            }
            Link::Next(next) => {
                if marks[walker.number] {
                    return Err(Refusal::NextMet(last as u16));
                }
                marks[walker.number] = true;
                last = walker.number;
                walker = walker.step_to(next);
            }
        }
    }
}

// How many of the items are looked up. Refused where a record on the chain is not allowed.
pub fn judge_records(file: &[u8], count: usize, used: usize) -> Result<usize, Refusal>
    requires { Chained file.now count }
    ensures { result ≡ judge_answer used file.now 0 (order_of file.now) }
{
    let mut walker = Walker::start(file);
    let mut looked_up = 0;
    for _ in 0..count {
        let record = Record {
            file,
            number: walker.number,
        };
        looked_up += record.judge(used)?.looked_up();
        walker = walker.advance();
    }
    Ok(looked_up)
}

// A loop of its own: one for this walk and the one before would take a closure that can refuse, which writing the table never does.
// Writes the record numbers in chain order into the table's first places, as many as it has places for.
pub fn fill(file: &[u8], count: usize, table: &mut [u16])
    requires { Chained file.now count }
    ensures { table.new ≡ table_with (order_of file.now) table.old }
{
    let mut walker = Walker::start(file);
    for place in 0..count.min(table.len()) {
        table[place] = walker.number as u16;
        walker = walker.advance();
    }
}
