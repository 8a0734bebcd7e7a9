// Words that the definitions of every crate above are written in, and the laws of lists. There is no code here.
#![tactic(auto)]
