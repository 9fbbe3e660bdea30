//! The worked figures of the public calls of the command line and of the program: their tests.
#![tactic(auto)]

#[cfg(test)]
mod gw_command_tests;
#[cfg(test)]
mod gw_report_tests;
