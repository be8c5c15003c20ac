// What it means to put questions one after the other: the first no is the answer. Definitions only.
#![tactic(auto)]
