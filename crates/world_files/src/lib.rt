//! The files of every world and the container's log of counted saves: the facts behind what is safe of them.
#![tactic(auto)]
