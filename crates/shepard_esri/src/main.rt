// Reads a survey file whose preamble begins with a grid's six numbers from standard input, and writes the Esri ASCII grid, or why there is none.
#![tactic(auto)]

fn main(rt: HostRuntime) {
    grid_io::serve(&rt, esri_program::run);
}
