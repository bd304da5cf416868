// The exported C interface, as include/funnelivy.h declares it: a module for each group of calls.
// Each call hands its arguments to the inner call of the same contract, and `c_answer`, `c_record` or `c_card` turn its answer into a
// record of numbers. A mode is a number here, since a C call may be given any; where a call answers no record, its answer is the refusal's
// number alone.
#![tactic(auto)]

mod calls;
mod cards;
mod counts;
mod report;
mod sizes;
mod sound;
