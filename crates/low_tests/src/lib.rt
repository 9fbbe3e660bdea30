//! The worked figures of the public calls of the crates up to a circuit and the filters: their tests.
#![tactic(auto)]

#[cfg(test)]
mod e1_g711_tests;
#[cfg(test)]
mod g704_align_tests;
#[cfg(test)]
mod g704_bits_tests;
#[cfg(test)]
mod g704_cas_tests;
#[cfg(test)]
mod g704_crc4_tests;
#[cfg(test)]
mod g704_slots_tests;
#[cfg(test)]
mod g726_codec_tests;
#[cfg(test)]
mod g726_predict_tests;
#[cfg(test)]
mod g726_quant_tests;
#[cfg(test)]
mod g726_tone_tests;
#[cfg(test)]
mod gw_circuit_tests;
#[cfg(test)]
mod gw_filter_tests;
#[cfg(test)]
mod gw_listing_tests;
#[cfg(test)]
mod log_files_tests;
#[cfg(test)]
mod q421_line_tests;
#[cfg(test)]
mod rtp_pack_tests;
#[cfg(test)]
mod rtp_packet_tests;
#[cfg(test)]
mod rtp_playout_tests;
#[cfg(test)]
mod satop_packet_tests;
#[cfg(test)]
mod satop_playout_tests;
#[cfg(test)]
mod saved_octets_tests;
