// The rules of document 01 as definitions (specs/) and the laws about them (proofs/). No code.
#![tactic(auto)]
