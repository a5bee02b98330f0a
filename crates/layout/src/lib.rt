// Nothing runs here: the rules that make texts are in specs/, laws of the list of labels in proofs/.
#![tactic(auto)]
