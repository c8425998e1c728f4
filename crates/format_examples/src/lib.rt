// The specimens P1 to P11, the example of each refusal, worked examples of the rules, and how header values are written, as theorems about
// the definitions of `format`. This crate has no function.

#![tactic(auto)]
