// A grid file read: its six numbers, and its cells into lent ones, or why it is refused.
#![tactic(auto)]

ghost use Rattle.std.specs.Prelude.{◌≡◌, ◌*◌, ◌≤◌, length};
ghost use Rattle.model.specs.GridReading.{cells_of, cells_read_into};
ghost use Rattle.refusal.specs.Numbered.{numbered};
ghost use Rattle.grid_reading.specs.ReadAs.{OpensAs, cells_read_as};

pub use grid_rules::Grid;
use refusal::Refusal;

// The six numbers of a grid file: refusals 9, 10, 7, 12.
pub fn open(file: &[u8]) -> Result<Grid, Refusal>
    ensures { OpensAs file.now result }
{
    grid_trailer::check(file)?;
    let end = file.len() - 20;
    Ok(grid_trailer::grid_of(&file[end..]))
}

// Cells of two bytes each, in two's complement.
fn decode(bytes: &[u8], out: &mut [i16])
    requires { (length bytes.now ≡ 2 * length out.old) × (length out.old ≤ 4096) }
    ensures { out.new ≡ cells_of bytes.now }
{
    for (i, cell) in out.iter_mut().enumerate() {
        *cell = i16::from_be_bytes([bytes[2 * i], bytes[2 * i + 1]]);
    }
}

// The cells of a grid file to the front of the lent ones, and how many they are: refusals 9, 10, 7, 12, 8.
pub fn cells(file: &[u8], out: &mut [i16]) -> Result<usize, Refusal>
    ensures value { numbered result ≡ cells_read_as file.now (length out.old) }
    ensures out_after { out.new ≡ cells_read_into file.now out.old }
{
    let n = grid_rules::cell_count(open(file)?);
    if out.len() < n {
        return Err(Refusal::TooFewLent);
    }
    decode(&file[..2 * n], &mut out[..n]);
    Ok(n)
}
