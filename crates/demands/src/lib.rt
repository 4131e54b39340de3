// The three demands as theorems about the calls, a file of specs/ each: Demand1, Demand2, Demand3; ShutOut has what they rule out by name.
#![tactic(auto)]
