//! The worked figures of the public calls of gateways, their sessions and their ports: their tests.
#![tactic(auto)]

#[cfg(test)]
mod gw_config_tests;
#[cfg(test)]
mod gw_session_tests;
#[cfg(test)]
mod gw_state_tests;
#[cfg(test)]
mod gw_switch_tests;
#[cfg(test)]
mod gw_udp_tests;
