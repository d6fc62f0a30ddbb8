//! That the linked tableau is the dense one. The function is a law: its clause is a statement about all tableaus, and the body is empty.
ghost use Rattle.dcx_chained.specs.Agreement.{LinkedIsDense};

/// After any list of pivots both show the same basis and entries, and they refuse the same pivots.
pub fn linked_is_dense()
    ensures { LinkedIsDense }
{}
