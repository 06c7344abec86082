// Two designers, one scan: what holds over any history of both, in specs/ and proofs/. No code.
#![tactic(auto)]
