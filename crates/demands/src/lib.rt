// The user's demands and the P cases of 01, as theorems over the definitions: no code.
#![tactic(auto)]
