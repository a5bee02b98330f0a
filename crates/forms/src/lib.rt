// Nothing runs here: what stands in the number fields of a line, and where, is in specs/.
#![tactic(auto)]
