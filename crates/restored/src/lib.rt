// Theorems of saved lines, fed to a fresh card. There is no code here.
#![tactic(auto)]
