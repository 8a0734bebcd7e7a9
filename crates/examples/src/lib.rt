// Document 01's marked examples, computed from the definitions that the contracts cite: proofs/Table.antt. No code of its own.
#![tactic(auto)]
