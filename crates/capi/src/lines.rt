// Tables in the one-line form: reading a line, and writing one.
ghost use Rattle.std.specs.Prelude.{◌≡◌, length};
ghost use Rattle.table_text_reader.specs.Reading.{read_of, read_into};
ghost use Rattle.table_text_writer.specs.Writing.{write_of, write_into};
ghost use Rattle.capi_engines.specs.Model.Engines.{machine_of};
ghost use Rattle.capi_numbers.specs.Model.Answers.{result_code, result_out, number_out};
ghost use Rattle.capi_numbers.specs.Model.Parts.{machine_out};

use capi_numbers::answers;
use table_text::{read_line, write_line};

// The numbers of symbols and of states of the line's table, whose bytes go into the first places of `table`.
#[unsafe(no_mangle)]
pub extern "C" fn tm_line_read(line: &[u8], table: &mut [u8], out: &mut [u64; 8]) -> u8
    ensures { (result ≡ result_code (read_of line.now (length table.old))) × (out.new ≡ result_out machine_out (read_of line.now (length table.old)) out.old) × (table.new ≡ read_into line.now table.old) }
{
    let read = read_line(line, table);
    answers::put_result(out, read)
}

// The number of bytes of the table's line, which goes into the first places of `line`.
#[unsafe(no_mangle)]
pub extern "C" fn tm_line_write(
    tapes: u64,
    symbols: u64,
    states: u64,
    start: u64,
    table: &[u8],
    line: &mut [u8],
    out: &mut [u64; 8],
) -> u8
    ensures { (result ≡ result_code (write_of (machine_of tapes symbols states start) table.now (length line.old))) × (out.new ≡ result_out number_out (write_of (machine_of tapes symbols states start) table.now (length line.old)) out.old) × (line.new ≡ write_into (machine_of tapes symbols states start) table.now line.old) }
{
    let m = capi_engines::machine_of(tapes, symbols, states, start);
    let written = write_line(m, table, line);
    answers::put_result(out, written)
}
