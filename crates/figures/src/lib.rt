// Nothing runs here: the figures are a table of definitions with one proof.
#![tactic(auto)]
