// The claim over every list of calls that also begin grids and fill rows; no code.
#![tactic(auto)]
