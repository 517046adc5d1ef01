// Laws of a running flush: what its layout, its plan and the order at its end come to by the rules. No function stands here.
#![tactic(auto)]
