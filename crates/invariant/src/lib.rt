// What holds of the state after each word of a run, and of every action that a run draws. There is no code here.

#![tactic(auto)]
