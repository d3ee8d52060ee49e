// Demand 3 of one channel: definitions and theorems only. The code they speak of is in `channel`.
#![tactic(auto)]
