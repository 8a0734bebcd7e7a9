// House records, field by field, as document 01 writes them: their definitions stand in specs/. There is no code here.
#![tactic(auto)]
