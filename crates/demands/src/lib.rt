// Theorems alone: specs/ has them. No code.
#![tactic(auto)]
