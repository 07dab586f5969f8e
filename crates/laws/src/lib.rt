// No code: what the other crates' definitions and proofs share.
#![tactic(auto)]
