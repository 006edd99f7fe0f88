// The texts of a grid's cells, and a row of them as a line: document 02, §2.
#![tactic(auto)]

ghost use Rattle.std.specs.Prelude.{◌≡◌, cond, [], ◌∷◌, ◌++◌, ◌+◌, ◌<◌, ◌≤◌, eqb, length};
ghost use Rattle.model.specs.Lists.{laid};
ghost use Rattle.model.specs.Esri.{size_text, cell_text, row_line};
ghost use Rattle.esri_cells.specs.Sizes.{cells_length};

// How many bytes a cell's text takes.
fn cell_length(v: i16) -> usize
    ensures { (result ≡ length (cell_text v)) × (result ≤ 13) }
{
    let k = digits::places(numbers::size(v) / 256);
    if v < 0 {
        return k + 10;
    }
    k + 9
}

// How many bytes the cells take, with the space or the line feed after each.
pub fn cells_length(values: &[i16]) -> usize
    requires { length values.now ≤ 4096 }
    ensures { (result ≡ cells_length values.now) × (result ≤ 57344) }
{
    let mut sum = 0;
    for v in values {
        sum += cell_length(*v) + 1;
    }
    sum
}

// The whole part, a point and eight decimals of n 256ths.
fn put_size(n: u64, out: &mut [u8]) -> usize
    requires { length (size_text n) ≤ length out.old }
    ensures value { result ≡ length (size_text n) }
    ensures out_after { out.new ≡ laid (size_text n) out.old }
{
    let at = digits::put(n / 256, out);
    out[at] = b'.';
    let end = at + 9;
    digits::spell(n % 256 * 390625, &mut out[at + 1..end]);
    end
}

// A cell, with its sign if negative.
fn put_cell(a: i16, out: &mut [u8]) -> usize
    requires { length (cell_text a) ≤ length out.old }
    ensures value { result ≡ length (cell_text a) }
    ensures out_after { out.new ≡ laid (cell_text a) out.old }
{
    let n = numbers::size(a);
    if a < 0 {
        out[0] = b'-';
        let k = put_size(n, &mut out[1..]);
        return k + 1;
    }
    put_size(n, out)
}

// What follows a cell that has so many after it in its row.
fn separator(left: usize) -> u8
    ensures { result ≡ cond (eqb left 0) 10 32 }
{
    if left == 0 { b'\n' } else { b' ' }
}

// A row's line with its line feed, and how many bytes it takes.
pub fn put_row(values: &[i16], out: &mut [u8]) -> usize
    requires { (0 < length values.now) × (length (row_line values.now) < length out.old) }
    ensures value { result ≡ length (row_line values.now) + 1 }
    ensures out_after { out.new ≡ laid (row_line values.now ++ (10 ∷ [])) out.old }
{
    let mut at = 0;
    for (i, v) in values.iter().enumerate() {
        at += put_cell(*v, &mut out[at..]);
        out[at] = separator(values.len() - i - 1);
        at += 1;
    }
    at
}
