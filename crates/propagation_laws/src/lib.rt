// Laws of propagation over the definitions of crate model: the fixpoint, the rules and the places that they look at, the meaning of each code, accepted sheets.
#![tactic(auto)]
