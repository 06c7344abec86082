// The worked figures of document 01 that are marked with a star: a table under one statement, in specs/ and proofs/. No code.
#![tactic(auto)]
