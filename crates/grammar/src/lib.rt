// What is valid, as a grammar that reads nothing, and theorems that the readers take exactly that: no code.
#![tactic(auto)]
