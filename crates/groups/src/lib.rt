// Theory only: numbers in groups, and the number of a group counted by lowest member.

#![tactic(auto)]
