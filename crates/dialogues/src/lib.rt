// What follows of many calls: theorems alone, and no function.
#![tactic(auto)]
