#![tactic(auto)]

// Theory only: document 01's table for every call, and its starred examples. There is no function here; `specs/` has the statements and `proofs/` their proofs.
