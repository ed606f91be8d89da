// The pencil checks of document 01, marked P there: one table over the definitions, with its single theorem. There is no
// code here.
#![tactic(auto)]
