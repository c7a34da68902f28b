//! Laws over the input of a number, each as the contract of a function that does nothing.

ghost use Rattle.demo_input.specs.Laws.{DemoHoldsNumbered, DemoIsValid};

/// The input of a number up to 1000 is valid, for an index of each version.
pub fn demo_is_valid()
    ensures { DemoIsValid }
{}

/// The objects of a number hold a unit each, with a name of its own and `common`.
pub fn demo_holds_numbered_objects()
    ensures { DemoHoldsNumbered }
{}
