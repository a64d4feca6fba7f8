// Laws of the integers only: nothing runs here.
#![tactic(auto)]
