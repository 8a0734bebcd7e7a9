// What the number of a clause tells that a judgement names: the laws stand beside this file. There is no code here.
#![tactic(auto)]
