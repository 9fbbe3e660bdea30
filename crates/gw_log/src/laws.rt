//! Laws of the log: what its files leave whenever the program is killed, what the next start begins with, and
//! what was given out.
ghost use Rattle.gw_log.specs.Calls.{LogsAreLeft};
ghost use Rattle.gw_log.specs.Lives.{StartsAnswerTheirLogs};
ghost use Rattle.gw_log.specs.Starts.{StartsGoOn};

/// Behind any calls, whichever of them failed, the files of a log leave the gateway that it was begun with,
/// behind the records that it took; or behind these and those of the append at which it ended.
pub fn logs_are_left()
    ensures { LogsAreLeft }
{}

/// For every list of starts of one configuration on one folder, which was empty before the first, each killed
/// at any time: the next one begins with a new gateway behind all that these starts have logged, in order.
/// That is what their logs took; and the record that was just being appended at a cut may be there, too.
pub fn starts_go_on()
    ensures { StartsGoOn }
{
    logs_are_left();
    gw_state::laws::loaded_gateways_go_on();
    gw_session::laws::at_most_one_reading();
}

/// .. and the packets and octets that each start gave out are the first of what answers what it has logged,
/// behind all that those before it have logged, and all of that but for a part of the last record's.
pub fn starts_answer_their_logs()
    ensures { StartsAnswerTheirLogs }
{
    logs_are_left();
    gw_state::laws::loaded_gateways_go_on();
    gw_session::laws::at_most_one_reading();
    gw_session::laws::cut_sessions_answer_their_logs();
}
