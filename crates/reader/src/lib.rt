//! Reading step by step, as definitions and lemmas: the value, or the first fault that is met. There is no code here.
#![tactic(auto)]
