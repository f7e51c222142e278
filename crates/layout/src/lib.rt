// The bytes of a state, as the functions over its regions have them, are the model's. It has no code of its own.
#![tactic(auto)]
