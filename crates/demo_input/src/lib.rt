//! A large input from a number, which has tables: so many objects with their placements, and so many SFrame
//! contributions. `specs/` defines the input, and a law says that it is valid.
#![tactic(auto)]

mod contribution;
mod demo;
mod laws;
mod object;

pub use demo::{DemoInput, demo_input};
pub use laws::{demo_holds_numbered_objects, demo_is_valid};
