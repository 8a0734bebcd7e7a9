// What was scanned from bytes, written again, is the same bytes. Proofs only; there is no code here.
#![tactic(auto)]
