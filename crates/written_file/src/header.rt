// The header of a training file, put into a lent output.

ghost use Rattle.std.specs.Prelude.{◌≤◌};
ghost use Rattle.buffer.specs.Put.{Put, Room};
ghost use Rattle.training_file.specs.Layout.{feature_count};
ghost use Rattle.training_file.specs.Parameters.{records_most};
ghost use Rattle.written_file.specs.File.{header_bytes};

use super::record::following;
use buffer::put::Cursor;
use training_file::parameters::Parameters;

// The header of a file of so many records, all of them on its chain.
#[inline(always)]
pub fn put_header(out: &mut Cursor, records: usize, parameters: Parameters)
    requires room { Room (header_bytes records parameters) out.old }
    requires most { (records ≤ records_most) × (parameters.used ≤ feature_count) }
    ensures { Put (header_bytes records parameters) out.old out.new }
{
    let stored = records as u16;
    out.put_bytes(&stored.to_le_bytes());
    out.put_bytes(&following(records, 0).to_le_bytes());
    out.put_byte(parameters.used as u8);
    out.put_byte(parameters.kernel.into());
    out.put_bytes(&0u16.to_le_bytes());
    out.put_bytes(&parameters.grid.to_le_bytes());
    out.put_bytes(&parameters.ceiling.to_le_bytes());
    out.put_bytes(&parameters.tolerance.to_le_bytes());
    out.put_bytes(&parameters.budget.to_le_bytes());
    out.put_bytes(&parameters.second_ceiling.to_le_bytes());
}
