// Document 01's Table M as one claim: specs/TableM.antt. There is no code here.
#![tactic(auto)]
