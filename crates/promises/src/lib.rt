// The customer's demands as theorems about the entry points' rules (specs/), proved (proofs/). No code.
#![tactic(auto)]
