// What the writer of a depth map writes, the reader of an invert reads: theorems over both calls' definitions, in specs/ and proofs/. No code.
#![tactic(auto)]
