// Theory of sheets of terms: what a sheet is, and the value of each of its terms in a world. There is no code here.

#![tactic(auto)]
