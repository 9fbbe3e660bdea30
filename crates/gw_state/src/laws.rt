//! A law of saved states: a gateway that is loaded goes on from the history of the one that was saved.
ghost use Rattle.gw_state.specs.Laws.{LoadedGatewaysGoOn};

/// A gateway that is loaded from a state has the history of the gateway that was saved, and then that each
/// circuit with another configuration begins as new; with the same configuration it has that history itself.
pub fn loaded_gateways_go_on()
    ensures { LoadedGatewaysGoOn }
{}
