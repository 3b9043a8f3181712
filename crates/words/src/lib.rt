// Laws of a state that is one lent list of words, some of them numbers by themselves and some of them columns: what a store, and a
// stretch that was lent, make of each. There is no code.
#![tactic(auto)]
