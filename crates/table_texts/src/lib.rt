//! The texts of the tables of jobs and tasks: lines of fields with commas, the names of the columns first.
#![tactic(auto)]
