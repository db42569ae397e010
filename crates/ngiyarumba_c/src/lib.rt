// The static library: the calls of `ngiyarumba` under C names, with numbers, slices and plain structs. Thin: each export calls the function of its name, and
// says what that says.

#![tactic(auto)]

pub mod draws;
pub mod flip;
pub mod numbered;
pub mod pin;
pub mod read;
pub mod run;
pub mod walk;
