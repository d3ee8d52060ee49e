// Theorems alone: every starred case of the paper, over the definitions that the contracts cite.
#![tactic(auto)]
