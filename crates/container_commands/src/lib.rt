//! Each command keeps what every record keeps, and what code makes of a record is what the definitions say.
#![tactic(auto)]
