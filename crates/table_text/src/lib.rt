// Tables of one tape in the one-line form, as `1RB1LB_1LA1RZ`: reading a line, and writing one.
#![tactic(auto, unfolding(notation::specs::Choice::both, notation::specs::Choice::pick))]

ghost use Rattle.std.specs.Prelude.{◌≡◌, length};
ghost use Rattle.table_text_reader.specs.Reading.{read_of, read_into};
ghost use Rattle.table_text_writer.specs.Writing.{write_of, write_into};

use machine::Machine;
use outcome::Refusal;

mod form;
mod reading;
mod writing;

// Writes the table of a line into the first places of `table`. Refusal 19, with the place, for a malformed line; 20, with
// the first place, for a letter or a digit that the line's rows lack; 18 for too short a table.
pub fn read_line(line: &[u8], table: &mut [u8]) -> Result<Machine, Refusal>
    ensures { (result ≡ read_of line.now (length table.old)) × (table.new ≡ read_into line.now table.old) }
{
    let scanned = form::scan(line);
    match scanned {
        Err(i) => {
            return Err(Refusal::MalformedLine(i));
        }
        Ok((rows, symbols)) => {
            let lacks = reading::first_lacking(line, rows, symbols);
            match lacks {
                Some(i) => {
                    return Err(Refusal::LineLacks(i as u64));
                }
                None => {
                    return reading::read_formed(line, rows, symbols, table);
                }
            }
        }
    }
}

// Writes the line of a table into the first places of `line`. After the table check: refusal 21 for a table that has no
// line of the form, 18 for too short a line.
pub fn write_line(m: Machine, table: &[u8], line: &mut [u8]) -> Result<u64, Refusal>
    ensures { (result ≡ write_of m table.now (length line.old)) × (line.new ≡ write_into m table.now line.old) }
{
    m.check(table)?;
    if !writing::has_line(m, table) {
        return Err(Refusal::NoLine);
    }
    let rows = writing::lettered_rows(m, table);
    let size = rows * (3 * m.symbols + 1) - 1;
    if (line.len() as u64) < size {
        return Err(Refusal::OutputSize);
    }
    writing::write_bytes(table, rows, m.symbols, size, line);
    Ok(size)
}
