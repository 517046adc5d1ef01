// Laws of lines: a stream says the same whatever its pieces, and a line too long for the buffer asks for nothing. No function stands here.
#![tactic(auto)]
