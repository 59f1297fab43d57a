// The laws of the encoding: totalizers, counts, one solution for each satisfying assignment, the text read back.
#![tactic(auto)]
