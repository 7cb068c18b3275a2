// Laws of FACCH that no function of its crates needs. There is no code here.
#![tactic(auto)]
