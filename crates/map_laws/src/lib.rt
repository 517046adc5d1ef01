// Laws of maps: a list and its bytes go both ways, and what the bytes of the map that a host keeps say. No function stands here.
#![tactic(auto)]
