// No code: document 01's cases marked P, as a table that the prover computes.
#![tactic(auto)]
