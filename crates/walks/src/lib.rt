// Lemmas for a proof that walks a function's code by hand: see proofs/. No code.
#![tactic(auto)]
