//! Laws of the causes, each the contract of a function that does nothing but cite the laws of lower crates.

ghost use Rattle.derivation.specs.Laws.{HasOneCause, ValidHasNoCause, InsideIsNoBadSpan, IndexesAreChecked};

/// An input is refused for one cause.
pub fn refused_for_one_cause()
    ensures { HasOneCause }
{
    gdb_index_format::objects_are_one();
    gdb_tables::placed_are_not_misplaced();
    gdb_tables::size_causes_are_one();
    gdb_tables::indexable_has_no_cause();
    sframe_order::refused_for_one_cause();
    sframe_order::valid_is_sorted();
}

/// Valid input has no cause to be refused.
pub fn valid_has_no_cause()
    ensures { ValidHasNoCause }
{
    gdb_tables::placed_are_not_misplaced();
    gdb_tables::indexable_has_no_cause();
    sframe_order::valid_is_sorted();
}

/// The index of valid input can be browsed: it passes each test of `check_index`.
pub fn indexes_are_checked()
    ensures { IndexesAreChecked }
{
    gdb_index_format::objects_are_one();
    gdb_index_format::sizes_are_one();
    index_browser::layout_is_checked();
}

/// Spans that lie in the buffer are never the cause of `BadSpan`.
pub fn inside_is_no_bad_span()
    ensures { InsideIsNoBadSpan }
{}
