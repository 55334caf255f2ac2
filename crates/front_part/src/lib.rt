// A call that hands back the front part of a lent buffer. The definition is in specs/; no type is declared here.
#![tactic(auto)]
