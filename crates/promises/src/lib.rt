// When a promise leaves one outcome only: definitions and theorems. The promises are those of every public function.
#![tactic(auto)]
