// What a session is made of and works on without its record: the stores, the phases with the sizes that change them, and the refusals of calls.
#![tactic(auto)]

pub mod phases;
pub mod refusals;
pub mod stores;
