// What rows and streams of them mean, how a stream goes from one kind of rows to another, and the laws of that: no code.
#![tactic(auto)]
