// A whole byte string, record after record: what it comes to, and demand 3 on bytes. Definitions and proofs only; crate walk is the code.
#![tactic(auto)]
