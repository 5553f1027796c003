// Theory of classes of forced-equal terms: tables of classes on a sheet, and the freest world that such a table gives.
// There is no code here.

#![tactic(auto)]
