//! Why octets are not the state of a gateway, and the number of each kind (`LoadFault`).

ghost use Rattle.std.specs.Prelude.{◌≡◌};
ghost use Rattle.gw_state.specs.Faults.{kind_number};
ghost use Rattle.gw_state.specs.declared.fault.LoadFault.TheVariants.{Refused};

use thiserror::Error;

/// The kinds of faults, in the order in which they are looked for.
#[derive(Clone, Copy, Debug, PartialEq, Eq)]
pub enum StateKind {
    /// 1: fewer octets than the least state has.
    Short,
    /// 2: the first four octets are not `E1GS`.
    NoState,
    /// 3: a version that is not known.
    Version,
    /// 4: the checksum is not that of the octets before it.
    Sum,
    /// 5: another law, or octets that configure no circuit.
    Config,
    /// 6: a value that the trunk or a circuit cannot have, or the octets end within it.
    Value,
    /// 7: octets between the last circuit and the checksum.
    Left,
}

impl StateKind {
    /// The number of the kind, from 1 to 7.
    pub fn number(self) -> u8
        ensures { result ≡ kind_number self }
    {
        match self {
            StateKind::Short => 1,
            StateKind::NoState => 2,
            StateKind::Version => 3,
            StateKind::Sum => 4,
            StateKind::Config => 5,
            StateKind::Value => 6,
            StateKind::Left => 7,
        }
    }
}

/// Why no state is loaded. It prints as `state 5 Config at 7`, or `out of memory`.
#[derive(Clone, Copy, Debug, PartialEq, Eq, Error)]
pub enum LoadFault {
    /// Memory was refused.
    #[error("out of memory")]
    OutOfMemory,
    /// The octets have this fault.
    #[error("state {number} {kind:?} at {at}", number = .kind.number())]
    Refused {
        /// The kind of the fault.
        kind: StateKind,
        /// The circuit whose configuration or value has the fault; 0 for the law, for the trunk, and at the
        /// other kinds.
        at: u8,
    },
}

impl LoadFault {
    // A fault of the whole file.
    pub(crate) fn of(kind: StateKind) -> LoadFault
        ensures { result ≡ Refused kind 0 }
    {
        LoadFault::Refused { kind, at: 0 }
    }
}
