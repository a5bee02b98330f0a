// writer
#![tactic(auto)]
