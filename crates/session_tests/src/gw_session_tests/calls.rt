//! Trunks with calls, sessions of their octets, and what is written for a circuit.
ghost use Rattle.std.specs.Prelude.{◌<◌};

use byteorder::{BigEndian, ByteOrder};
use std::alloc::{AllocError, Global};

/// A trunk that is aligned from its first octet on, with frame 0 of the multiframe there.
#[derive(Clone, Copy)]
pub enum Trunk {
    /// Circuit 1 is in a call: it hears 0xD4, the others 0xD6.
    FirstCall,
    /// The same, with seven octets 00 before octet 51200.
    Inserted,
    /// Circuits 3 and 18 are in calls.
    Hostile,
    /// Circuit 3 is in a call, circuit 18 is idle.
    Quiet,
}

// The position of the inserted octets.
const INSERTED: u32 = 51_200;

impl Trunk {
    /// The octet at a position.
    pub fn octet(self, position: u32) -> u8 {
        match self {
            Trunk::FirstCall => of_first_call(position),
            Trunk::Inserted if position < INSERTED => of_first_call(position),
            Trunk::Inserted if position < INSERTED + 7 => 0,
            Trunk::Inserted => of_first_call(position - 7),
            Trunk::Hostile => of_two_calls(position, true),
            Trunk::Quiet => of_two_calls(position, false),
        }
    }
}

// The signal in slot 0 of a frame.
fn signal(frame: u32) -> u8 {
    if frame % 2 == 0 { 0x9B } else { 0xDF }
}

/// Circuit 1 is signalled 1001, and 1101 from the thirteenth multiframe on.
pub fn of_first_call(position: u32) -> u8 {
    let acknowledged = position / 512 >= 12;
    match (position % 32, position / 32 % 16) {
        (0, frame) => signal(frame),
        (16, 0) => 0x0B,
        (16, 1) if acknowledged => 0xD9,
        (16, _) => 0x99,
        (1, _) => 0xD4,
        _ => 0xD6,
    }
}

// Circuits 3 and 18 are signalled 1001, and 1101 from the thirteenth multiframe on; then 18 is answered. A
// quiet circuit 18 is signalled 1001, and hears 0xD5.
fn of_two_calls(position: u32, hostile: bool) -> u8 {
    let multiframe = position / 512;
    let others = match multiframe {
        0..12 => 0x99,
        12..36 => 0xDD,
        _ => 0xD5,
    };
    match (position % 32, position / 32 % 16) {
        (0, frame) => signal(frame),
        (16, 0) => 0x0B,
        (16, 3) if hostile => others,
        (16, 3) => (others & 0xF0) | 9,
        (16, _) => 0x99,
        (3, _) => (position / 32 % 251) as u8,
        (19, _) if hostile => (position / 32 % 241) as u8,
        _ => 0xD5,
    }
}

/// The octets of records.
#[derive(Drop)]
pub struct Session {
    pub octets: Vec<u8>,
}

impl Session {
    pub fn new(alloc: Global) -> Session {
        Session {
            octets: Vec::new(alloc),
        }
    }

    /// Adds records as they are.
    pub fn add(&mut self, records: &[u8]) -> Result<(), AllocError> {
        self.octets.extend_from_slice(records)?;
        Ok(())
    }

    /// Adds the octets of a trunk from a position up to another, in records of `most` octets.
    pub fn add_trunk(
        &mut self,
        trunk: Trunk,
        from: u32,
        to: u32,
        most: u16,
    ) -> Result<(), AllocError>
        requires { 0 < most }
    {
        for position in from..to {
            if (position - from) % u32::from(most) == 0 {
                let mut front = [0x54, 0, 0, 0];
                let len = (to - position).min(u32::from(most));
                BigEndian::write_u16(&mut front[2..4], len as u16);
                self.octets.extend_from_slice(&front)?;
            }
            self.octets.push(trunk.octet(position))?;
        }
        Ok(())
    }

    /// Adds a datagram of a circuit, of the octets D5.
    pub fn add_datagram(
        &mut self,
        circuit: u8,
        payload_type: u8,
        timestamp: u32,
        len: u16,
    ) -> Result<(), AllocError>
        requires { len < 60000 }
    {
        let mut front = [
            0x44,
            circuit,
            0,
            0,
            0x80,
            payload_type,
            0,
            0,
            0,
            0,
            0,
            0,
            0,
            0,
            0,
            9,
        ];
        BigEndian::write_u16(&mut front[2..4], len + 12);
        BigEndian::write_u32(&mut front[8..12], timestamp);
        self.octets.extend_from_slice(&front)?;
        for _octet in 0..len {
            self.octets.push(0xD5)?;
        }
        Ok(())
    }
}

/// What a session writes: the octets of its trunk records, and the D and R records of one circuit.
#[derive(Drop)]
pub struct Written {
    pub trunk: Vec<u8>,
    pub datagrams: Vec<u8>,
    pub answers: Vec<u8>,
}

/// Takes records apart.
pub fn take_apart(alloc: Global, circuit: u8, records: &[u8]) -> Result<Written, AllocError> {
    let mut written = Written {
        trunk: Vec::new(alloc),
        datagrams: Vec::new(alloc),
        answers: Vec::new(alloc),
    };
    let mut rest = records;
    for _turn in 0..records.len() {
        if rest.len() < 4 {
            return Ok(written);
        }
        let len = 4 + usize::from(BigEndian::read_u16(&rest[2..4]));
        if rest.len() < len {
            return Ok(written);
        }
        let record = &rest[..len];
        if record[0] == 0x54 {
            written.trunk.extend_from_slice(&record[4..])?;
        } else if record[1] == circuit && record[0] == 0x44 {
            written.datagrams.extend_from_slice(record)?;
        } else if record[1] == circuit {
            written.answers.extend_from_slice(record)?;
        }
        rest = &rest[len..];
    }
    Ok(written)
}
