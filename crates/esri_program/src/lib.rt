// The Esri program as one function from bytes to bytes: document 02, §2.
#![tactic(auto)]

ghost use Rattle.model.specs.Program.{esri_program, esri_program_refusal};
ghost use Rattle.grid_io.specs.Output.{RunsAs};

pub use grid_io::Output;

// The Esri ASCII grid of an input, or why there is none: refusals 9 to 15, then 7, then 16, then 6.
pub fn run(input: &[u8]) -> Output
    ensures { RunsAs (esri_program input.now) (esri_program_refusal input.now) input.now result }
{
    let s = match grid_io::read(input) {
        Ok(s) => s,
        Err(e) => return grid_io::refusal(e.number()),
    };
    // As in the other grid program: a shared body would take the contract of `write` as a predicate, and be no shorter.
    let g = grid_trailer::grid_of(input);
    let mut bytes = grid_io::blank();
    let written = esri::write(s, g, &mut bytes);
    grid_io::put_out(written, bytes)
}
