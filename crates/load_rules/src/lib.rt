// The run of the loader over a chip, by the rules: definitions and what is true of every run. There is no code here; profile_loader has it.
#![tactic(auto)]
