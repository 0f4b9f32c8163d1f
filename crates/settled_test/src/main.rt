// Runs the cases of its input through the library, a line each. They are document 01's settled examples P1 to P12, with the lines the
// results settled there, our own E1 to E3, K1 to K4, F1 to F6, I1 to I7, B1 to B7 and C1 to C7, and words at the ends of the range; the
// table is tests/reference/src/settled.rs. That the definitions give the settled results is the theorem `settled`; this shows the compiled
// code give them.
#![tactic(auto)]

ghost use Rattle.std.specs.Prelude.{◌+◌, ◌≤◌, length};

use lookahead::{Class, Ending, Kernel, Parameters, Refusal, Row, Thresholds, Trained};
use std::io;
use std::io::Read;
use training_file::bytes::{signed_byte, u16_at, u32_at, u64_at};
use training_file::item::Item;
use training_file::layout;
use writing::row::ROW_LENGTH;

// More cases than there are.
const MOST: usize = 100;

// The bytes of a case, and where its parts are: a name and a file, each after its length; three multipliers; a feature.
const CASE: usize = 113;

const NAME: usize = 0;

const KIND: usize = 5;

const FILE: usize = 6;

const FIRST: usize = 100;

const SECOND: usize = 104;

const THIRD: usize = 108;

const FEATURE: usize = 112;

// Where the parameters and the items to write are: in the file's header and in its first two records.
const HEADER: usize = 8;

const RECORD_1: usize = 40;

const RECORD_2: usize = 60;

// The most items that a case has to write, more bytes than it has to import, and the most places of its output: there is no heap.
const ITEMS: usize = 257;

const TEXT: usize = 800;

const PLACES: usize = 73;

// What a case does with its file.
enum Kind {
    Train,
    Certify,
    Classify,
    Write,
    Import,
}

// Any other kind imports.
impl From<u8> for Kind {
    fn from(byte: u8) -> Kind {
        match byte {
            0 => Kind::Train,
            1 => Kind::Certify,
            2 => Kind::Classify,
            3 => Kind::Write,
            _ => Kind::Import,
        }
    }
}

// The record is shown also where it is 0, which no refusal but 3 and 16 may carry.
fn show_refusal(rt: &impl Print, refusal: Refusal) -> io::Result<()> {
    print!(rt; " refused {} {}", refusal.number(), refusal.record())
}

fn show_thresholds(rt: &impl Print, lower: i64, upper: i64) -> io::Result<()> {
    print!(rt; " thresholds {lower} {upper}")
}

// The words here and below are this program's own, so that `Ending` and `Class` need no `Display`.
fn show_trained(rt: &impl Print, trained: Trained) -> io::Result<()> {
    match trained.ending {
        Ending::Converged => print!(rt; " converged")?,
        Ending::Stuck => print!(rt; " stuck")?,
        Ending::Spent => print!(rt; " spent")?,
    }
    print!(rt; " {},", trained.steps)?;
    show_thresholds(rt, trained.lower, trained.upper)
}

// Three places are lent, also where there are two items: what training leaves alone shows.
fn train(rt: &impl Print, file: &[u8], mut multipliers: [u32; 3]) -> io::Result<()> {
    let mut gradient = [9i64; 3];
    match lookahead::train::train(file, &mut multipliers, &mut gradient) {
        Ok(trained) => show_trained(rt, trained)?,
        Err(refusal) => show_refusal(rt, refusal)?,
    }
    print!(rt; ", multipliers")?;
    for multiplier in multipliers {
        print!(rt; " {multiplier}")?;
    }
    Ok(())
}

fn certify(rt: &impl Print, file: &[u8], multipliers: &[u32]) -> io::Result<()> {
    match lookahead::certify::certify(file, multipliers) {
        Ok(thresholds) => show_thresholds(rt, thresholds.lower, thresholds.upper),
        Err(refusal) => show_refusal(rt, refusal),
    }
}

fn classify(rt: &impl Print, file: &[u8], multipliers: &[u32], word: &[i8]) -> io::Result<()> {
    match lookahead::classify::classify(file, multipliers, word) {
        Ok(Class::LookedUp) => print!(rt; " looked up"),
        Ok(Class::PassedOver) => print!(rt; " passed over"),
        Ok(Class::Undecided) => print!(rt; " undecided"),
        Err(refusal) => show_refusal(rt, refusal),
    }
}

// The features and the label of the record that begins there, whatever its bytes are: an `Item` would not keep a label that is not allowed.
fn row(case: &[u8], at: usize) -> Row
    requires { at + 20 ≤ length case.now }
{
    let mut row = [0i8; ROW_LENGTH];
    for i in 0..Item::FEATURE_COUNT {
        row[i] = signed_byte(case[at + layout::FEATURES + i]);
    }
    row[Item::FEATURE_COUNT] = signed_byte(case[at + layout::LABEL]);
    row
}

// The parameters of the case's header, or the refusal of its kernel, which is judged apart. The reader's function is not asked: it refuses
// parameters that are not allowed, and what writing answers of these is tried.
fn parameters(case: &[u8; CASE]) -> Result<Parameters, Refusal> {
    Ok(Parameters {
        used: usize::from(case[HEADER + layout::FEATURES_IN_USE]),
        kernel: Kernel::try_from(case[HEADER + layout::KERNEL])?,
        grid: u32_at(case, HEADER + layout::GRID),
        ceiling: u32_at(case, HEADER + layout::CEILING),
        second_ceiling: u32_at(case, HEADER + layout::SECOND_CEILING),
        tolerance: u64_at(case, HEADER + layout::TOLERANCE),
        budget: u32_at(case, HEADER + layout::BUDGET),
    })
}

// The first item is that of record 1, every other one that of record 2.
fn write(
    case: &[u8; CASE],
    parameters: Parameters,
    count: usize,
    output: &mut [u8],
) -> Result<usize, Refusal> {
    let mut items = [row(case, RECORD_2); ITEMS];
    items[0] = row(case, RECORD_1);
    lookahead::write::write(parameters, &items[..count.min(ITEMS)], output)
}

// Puts bytes behind the first ones of a text, as far as there is room, and answers where they end.
fn put(text: &mut [u8], from: usize, bytes: &[u8]) -> usize
    requires { from ≤ length text.old }
    ensures { result ≤ length text.new }
{
    let end = text.len().min(from + bytes.len());
    text[from..end].copy_from_slice(&bytes[..end - from]);
    end
}

// Puts the text behind a file's header, with its first line so often, as far as there is room, and answers its length.
fn put_text(text: &mut [u8], file: &[u8], times: usize) -> usize
    ensures { result ≤ length text.new }
{
    let lines = file.get(layout::HEADER_LENGTH..).unwrap_or_default();
    let first = lines
        .iter()
        .position(|byte| *byte == b'\n')
        .map_or(0, |end| end + 1);
    let mut end = 0;
    for _ in 1..times {
        end = put(text, end, &lines[..first]);
    }
    put(text, end, lines)
}

fn import(
    file: &[u8],
    parameters: Parameters,
    times: usize,
    output: &mut [u8],
) -> Result<usize, Refusal> {
    let mut text = [0u8; TEXT];
    let end = put_text(&mut text, file, times);
    lookahead::import::import(parameters, &text[..end], output)
}

fn show_file(rt: &impl Print, length: Result<usize, Refusal>, output: &[u8]) -> io::Result<()> {
    match length {
        Ok(length) => print!(rt; " length {length}")?,
        Err(refusal) => show_refusal(rt, refusal)?,
    }
    print!(rt; ", output")?;
    for byte in output {
        print!(rt; " {byte}")?;
    }
    Ok(())
}

// Makes a file of so many items, or of a text with so many first lines. The places hold 9s beforehand: what is left alone shows.
fn make_file<F: FnOnce(Parameters, usize, &mut [u8]) -> Result<usize, Refusal>>(
    rt: &impl Print,
    case: &[u8; CASE],
    make: F,
) -> io::Result<()>
    requires { F.IsAlwaysCallable make }
{
    let parameters = match parameters(case) {
        Ok(parameters) => parameters,
        Err(refusal) => return show_refusal(rt, refusal),
    };
    let times = u32_at(case, FIRST) as usize;
    let places = u32_at(case, SECOND) as usize;
    if ITEMS < times || PLACES < places {
        return Ok(());
    }
    let mut output = [9u8; PLACES];
    let lent = &mut output[..places];
    show_file(rt, make(parameters, times, lent), lent)
}

// The bytes that come after their length, none where the case hasn't so many.
fn part(case: &[u8; CASE], at: usize) -> &[u8]
    requires { at + 2 ≤ 113 }
{
    let from = at + 2;
    let length = usize::from(u16_at(case, at));
    case.get(from..from + length).unwrap_or_default()
}

fn show_case(rt: &impl Print, case: &[u8; CASE]) -> io::Result<()> {
    rt.write_all(part(case, NAME))?;
    let file = part(case, FILE);
    let first = u32_at(case, FIRST);
    let second = u32_at(case, SECOND);
    match Kind::from(case[KIND]) {
        Kind::Train => train(rt, file, [first, second, u32_at(case, THIRD)])?,
        Kind::Certify => certify(rt, file, &[first, second])?,
        Kind::Classify => classify(rt, file, &[first, second], &[signed_byte(case[FEATURE])])?,
        Kind::Write => make_file(rt, case, |parameters, count, output| {
            write(case, parameters, count, output)
        })?,
        Kind::Import => make_file(rt, case, |parameters, times, output| {
            import(file, parameters, times, output)
        })?,
    }
    println!(rt)
}

fn main(rt: HostRuntime) -> io::Result<()> {
    let mut input = rt.stdin();
    for _ in 0..MOST {
        let mut case = [0u8; CASE];
        if input.read_exact(&mut case).is_err() {
            break;
        }
        show_case(&rt, &case)?;
    }
    Ok(())
}
