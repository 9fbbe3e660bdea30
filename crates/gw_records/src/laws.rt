//! Laws of records: octets are read as records in one way, and more octets keep them.
ghost use Rattle.gw_records.specs.Laws.{AtMostOneReading, MoreKeepsRecords, EachIsRead};

/// Octets are read as records in one way.
pub fn at_most_one_reading()
    ensures { AtMostOneReading }
{}

/// More octets keep the whole records that are there.
pub fn more_keeps_records()
    ensures { MoreKeepsRecords }
{}

/// Any octets are read as whole records and an end.
#[tactic(auto, using(crate::proofs::Totality::each_is_read))]
pub fn each_is_read()
    ensures { EachIsRead }
{}
