// Sends and settings, as they cross to a host: numbers where the sequences have enums, as abi_values has it.
#![tactic(auto)]

pub mod action;
pub mod config;
