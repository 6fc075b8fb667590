#![tactic(auto)]

// No code: how near a panel's masses are to the exact ones (01-scope 6.1 to 6.4), as theorems on what `mitc_tri3` is proved to answer.
