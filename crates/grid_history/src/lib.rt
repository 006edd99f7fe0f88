// The claim over every list of calls, of the Esri ASCII grid after it, as the contract of a function that runs one.
#![tactic(auto)]

ghost use Rattle.std.specs.Prelude.{◌≡◌, length};
ghost use Rattle.model.specs.Extent.{settled};
ghost use Rattle.model.specs.Calls.{present};
ghost use Rattle.model.specs.Esri.{esri_into};
ghost use Rattle.refusal.specs.Numbered.{numbered};
ghost use Rattle.history.specs.Encoding.{calls};
ghost use Rattle.grid_rules.specs.GridOf.{grid_of};
ghost use Rattle.esri.specs.EsriWritten.{esri_written_as};
ghost use Rattle.grid_history.specs.ClaimText.{ClaimText};

use esri::Grid;
use refusal::Refusal;

// The Esri ASCII grid after the calls of the records, to the front of the lent bytes. The files of the loads among them stand one after the other in `files`.
pub fn run_calls_text<'a>(
    records: &'a [u8],
    files: &'a [u8],
    g: Grid,
    out: &mut [u8],
) -> Result<usize, Refusal>
    ensures value { numbered result ≡ esri_written_as (settled (present (calls records.now files.now))) (grid_of g) (length out.old) }
    ensures out_after { out.new ≡ esri_into (settled (present (calls records.now files.now))) (grid_of g) out.old }
    ensures claim_text { ClaimText (grid_of g) (present (calls records.now files.now)) out.old (numbered result) out.new }
{
    let left = history::left_by(records, files);
    esri::write(left, g, out)
}
