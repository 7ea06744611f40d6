//! Who has a frame's menus and border in every world: the facts behind it, and that each event keeps them.
//!
//! The numbers of every world: the facts behind their limit, and what each step makes of them.
#![tactic(auto)]
