// What an index of a stream is, and one row fetched by it: no code.
#![tactic(auto)]
