// The cases of the program `cases` as the library takes them: the numbers of a line, the list that they hold, the places that a
// call is lent, and the calls asked once more with what lies past a stated length. Nothing here is part of the library; it is
// proved to be safe and to end.
#![tactic(auto)]

pub mod lists;
pub mod numbers;
pub mod places;
pub mod stated;
pub mod times;
