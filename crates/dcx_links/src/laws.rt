//! What the links make of each line. The function is a law: its clause is a statement about all stores, and the body is empty.
ghost use Rattle.dcx_links.specs.Laws.{LinesAreChains};

/// Every cell with a number other than 0 stands in the chain of its row and in that of its column, each once and in rising order.
pub fn lines_are_chains()
    ensures { LinesAreChains }
{}
