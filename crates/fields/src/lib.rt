// What declarations mean, as FIELD elements and as columns, the front of a call, and their laws: no code.
#![tactic(auto)]
