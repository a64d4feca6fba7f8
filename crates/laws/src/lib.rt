// Theorems over the definitions of `rules` alone: no function stands here.
#![tactic(auto)]
