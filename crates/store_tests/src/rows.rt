//! Rows of a file of two cells, computed on the definitions.
ghost use Rattle.store_tests.specs.FileRows.{YoungerStands, HigherStands, UnusedWritesNothing, OrderByStage};

/// Of two writes to one cell that of the earlier stage stands, which is the younger instruction's.
pub fn younger_stands()
    ensures { YoungerStands }
{}

/// Within a stage that of the higher port stands.
pub fn higher_stands()
    ensures { HigherStands }
{}

/// Nothing is written through a port that no line uses.
pub fn unused_writes_nothing()
    ensures { UnusedWritesNothing }
{}

/// The order of three ports: the later stage first, and within a stage by number.
pub fn order_by_stage()
    ensures { OrderByStage }
{}
