//! Laws of sessions that go on from a saved state.
ghost use Rattle.gw_check.specs.Continuing.{LoadedServingsGoOn, LoadedSessionsRunOn, SavedStatesRecover};

/// A run of a gateway that was loaded from the state that another run has saved answers by the definitions
/// for all that has happened. With the same configuration both write what one run over all their records
/// writes; with another one circuits that are configured otherwise begin as new between them.
pub fn loaded_sessions_run_on()
    ensures { LoadedSessionsRunOn }
{
    gw_state::laws::loaded_gateways_go_on();
    gw_session::laws::cut_by_history();
}

/// The same of serving with the same configuration: what the second session writes is what is written for its
/// inputs behind those of the first one.
pub fn loaded_servings_go_on()
    ensures { LoadedServingsGoOn }
{
    gw_state::laws::loaded_gateways_go_on();
    gw_session::laws::serving_is_cut_anywhere();
}

/// A replay that begins with a state that was saved behind the first records of a live session's recording,
/// over octets behind them, recovers the state of that session, wherever the recording was cut.
pub fn saved_states_recover()
    ensures { SavedStatesRecover }
{
    gw_state::laws::loaded_gateways_go_on();
}
