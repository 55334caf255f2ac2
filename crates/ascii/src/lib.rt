// Text as bytes. The definitions are in specs/; no type is declared here.
#![tactic(auto)]
