// Loading a hotel's own table from bytes (R-5).
ghost use Rattle.std.specs.Prelude.{◌≡◌};
ghost use Rattle.table_load.specs.Loading.{loading};
ghost use Rattle.lamphiek.specs.Loading.{told, table_left};

use crate::Answer;
use table_load::load;

// The table that a text holds: its words, with zeros behind them, are written, and counted in the answer. Numbers 13,
// 14, 15.
#[unsafe(no_mangle)]
pub extern "C" fn lamphiek_load(text: &[u8], table: &mut [u32; 32]) -> Answer
    ensures answer { result ≡ told (loading text.now) }
    ensures table { table.new
        ≡ table_left (loading text.now) table.old }
{
    let (number, count) = match load(text) {
        Ok(loaded) => {
            let words = loaded.table;
            *table = words;
            (0, loaded.len as u32)
        }
        Err(e) => (e.number(), 0),
    };
    Answer {
        number,
        index: 0,
        count,
        word: 0,
    }
}
