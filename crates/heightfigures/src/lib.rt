// The worked figures of height grids that are marked with a star: tables, in specs/ and proofs/. No code.
#![tactic(auto)]
