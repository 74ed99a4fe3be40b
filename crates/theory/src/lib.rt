// What follows from document 01's rules, about columns and their parentheses alone. No code.
#![tactic(auto)]
