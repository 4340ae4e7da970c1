// The check of the table's size and of its entries.
ghost use Rattle.std.specs.Prelude.{◌≡◌, ◌*◌, ◌≤◌, length};
ghost use Rattle.machine.specs.Model.Check.{size_check, entries_check};

use super::Machine;
use outcome::Refusal;
use table_bytes::inner as bytes;

pub(crate) fn check_size(m: Machine, table: &[u8], count: u64) -> Result<(), Refusal>
    requires { count ≤ 1099511627776 }
    ensures { result ≡ size_check m table.now count }
{
    let size = table.len() as u64;
    if size == 8 * count {
        return check_entries(m, table, count);
    }
    Err(Refusal::TableSize)
}

// Refusal 6 with the number of the lowest bad entry, if there is one.
fn check_entries(m: Machine, table: &[u8], count: u64) -> Result<(), Refusal>
    requires { length table.now ≡ 8 * count }
    ensures { result ≡ entries_check m table.now count }
{
    let found = bytes::first_bad(m.states, m.tapes, m.symbols, table, count);
    match found {
        Some(i) => Err(Refusal::Entry(i as u64)),
        None => Ok(()),
    }
}
