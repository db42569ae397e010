// The answers as they cross the boundary, plain structs of numbers, and the four draws: below the exports, so that they wait for no call on ten tables.

#![tactic(auto)]

pub mod draws;
pub mod flip;
pub mod read;
pub mod walk;
