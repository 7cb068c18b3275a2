// Laws of the speech codecs that no function of their crates needs. There is no code here.
#![tactic(auto)]
