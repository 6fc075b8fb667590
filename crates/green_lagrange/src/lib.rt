#![tactic(auto)]

// No code: that the second strain of `stvk_tri3` is a book's Green-Lagrange strain, derivatives and all, exactly, for a family of sheets (01-scope 6.5), as a theorem on what that routine is proved to answer.
