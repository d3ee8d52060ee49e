// The histories of the card: definitions and theorems only. The code they speak of is in `card` and `transfer`.
#![tactic(auto)]
