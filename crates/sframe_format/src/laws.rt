//! Laws over the definitions, each as the contract of a function that does nothing.

ghost use Rattle.sframe_format.specs.Fields.{ParsedHeadersAreOne};

/// The fields of a header are parsed to one header of version 2, or to one error.
pub fn parsed_headers_are_one()
    ensures { ParsedHeadersAreOne }
{}
