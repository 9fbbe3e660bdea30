//! How each circuit's socket is opened, receives from accepted senders and sends (`UdpPorts`).

ghost use Rattle.std.specs.Prelude.{◌≡◌, ◌≢◌, ◌⊎◌, ◌-◌, ◌≤◌, ℕ, Bool, List, Option, vec_len, vec_capacity};
ghost use Rattle.std.specs.Prelude.{length, Ok, None, IfOk, IfErr, IfSome, IsSomeAnd};
ghost use Rattle.std.specs.Prelude.{⊤, replicate, slice_set, true};
ghost use Rattle.std.specs.IoError.{error_kind};
ghost use Rattle.std.specs.declared.net.socket_addr.SocketAddr.{SocketAddr};
ghost use Rattle.gw_records.specs.Ports.{Receives, Sends, CountsFault, KeepsSends, KeepsReceives};
ghost use Rattle.gw_udp.specs.Calls.{HasCalled, IsFresh};
ghost use Rattle.gw_udp.specs.First.{EndpointSender, IsSenderOf, first_of, known_after};
ghost use Rattle.gw_udp.specs.Given.{GivesFew, HasGivenEnough, given_after};
ghost use Rattle.gw_udp.specs.Opening.{Blames, BlamesPorts, IsAddressOf, IsFaultOf};
ghost use Rattle.gw_udp.specs.Ready.{TakesTurn};
ghost use Rattle.gw_udp.specs.Resting.{rests_of};
ghost use Rattle.gw_udp.specs.SourceFilter.{IsAccepted};
ghost use Rattle.gw_udp.specs.Udp.{IsEndpointOf, IsEndpoint, HasEndpoints, KeepsOthers};
ghost use Rattle.gw_udp.specs.Udp.{ReceivesFrom, EndpointFindsNone, EndpointReceives, EndpointSends};

use crate::first_senders::FirstSenders;
use crate::given::GivenOctets;
use crate::inherited::{Descriptors, socket_at};
use crate::readiness::Readiness;
use crate::socket::Socket;
use crate::source_filter::SourceFilter;
use g704_cas::CircuitNo;
use gw_config::Port;
use gw_records::{AtStart, Log, PortFault, Ports};
use std::alloc::Global;
use std::io::{self, ErrorKind};
use std::net::{IpAddr, Net, SocketAddr, ToSocketAddrs};
use thiserror::Error;

const CIRCUITS: usize = 30;

// The most strangers' datagrams that one receive discards.
const MOST_STRANGERS: usize = 16;

/// Why sockets cannot be opened.
#[derive(Clone, Copy, Debug, PartialEq, Eq, Error)]
pub enum OpenFault {
    /// Memory was refused.
    #[error("out of memory")]
    OutOfMemory,
    /// The socket of this circuit cannot be opened, its host or its peer has no address, or their addresses
    /// are of different families.
    #[error("socket {0}")]
    Socket(u8),
}

// Sockets that are asked for: at this host, for these senders, some at these descriptors.
#[derive(Drop)]
struct SocketsAsked<'a> {
    host: &'a str,
    senders: SourceFilter,
    among: Descriptors,
}

/// A circuit's socket, its own address, its peer's, and the senders it accepts.
#[derive(Drop)]
pub struct Endpoint<S> {
    socket: S,
    here: AtStart<SocketAddr>,
    peer: SocketAddr,
    senders: SourceFilter,
}

/// A socket for each circuit that has ports.
///
/// A circuit without ports receives none, and its datagrams are dropped. The sockets as opened, all calls and
/// those up to the last look are ghost data.
#[derive(Drop)]
pub struct UdpPorts<S: Socket> {
    pub(crate) endpoints: Vec<Option<Endpoint<S>>>,
    readiness: Readiness,
    pub(crate) given: GivenOctets,
    pub(crate) firsts: FirstSenders,
    follows_calls: bool,
    receive_failed: u64,
    send_failed: u64,
    pub(crate) opened: AtStart<Vec<Option<Endpoint<S>>>>,
    pub(crate) log: Log,
    pub(crate) at_look: AtStart<Log>,
    ghost thirty: { vec_len endpoints ≡ 30 },
    ghost memory: { vec_capacity endpoints ≡ 30 },
    ghost called: { ∥ HasCalled S.receives S.sends log.calls opened.value.items endpoints.items ∥₁ },
    ghost few: { given.limited ≡ true → ∥ GivesFew at_look.value.calls log.calls given.counts ∥₁ },
}

// The fault of an error: out of memory, or a fault of this circuit.
fn fault_of(circuit: u8, error: &io::Error) -> OpenFault
    ensures { Blames circuit (error_kind error.now) result }
{
    match error.kind() {
        ErrorKind::OutOfMemory => OpenFault::OutOfMemory,
        _ => OpenFault::Socket(circuit),
    }
}

// The first address of a host by its name. The error is the system's.
fn look_up(net: &impl Net, host: &str, port: u16) -> io::Result<Option<SocketAddr>> {
    Ok((host, port).to_socket_addrs(net)?.next())
}

// The address of a host with this port: the first of a lookup if it is a name.
fn address_of(net: &impl Net, circuit: u8, host: &str, port: u16) -> Result<SocketAddr, OpenFault>
    ensures ok { IfOk result (IsAddressOf host.now port) }
    ensures err { IfErr result (IsFaultOf circuit) }
{
    if let Ok(ip) = host.parse::<IpAddr>() {
        return Ok(SocketAddr::new(ip, port));
    }
    match look_up(net, host, port) {
        Ok(Some(mut address)) => {
            address.set_port(port);
            Ok(address)
        }
        Ok(None) => Err(OpenFault::Socket(circuit)),
        Err(error) => Err(fault_of(circuit, &error)),
    }
}

// Has the system discard strangers' datagrams, if only the peer is accepted. It does so at less cost; if it
// does not, each receive does.
fn restrict<S: Socket>(socket: &mut S, senders: SourceFilter, peer: SocketAddr) {
    if let SourceFilter::Peer = senders {
        let _ = socket.connect(peer);
    }
}

// Opens a circuit's socket by its configuration.
fn open_endpoint<S: Socket>(
    net: &impl Net,
    readiness: &mut Readiness,
    circuit: u8,
    port: &Port,
    asked: &SocketsAsked,
) -> Result<Endpoint<S>, OpenFault>
    requires { (1 ≤ circuit) × (circuit ≤ 30) }
    ensures ok { IfOk result (IsEndpointOf asked.now.host.now asked.now.senders port.now) }
    ensures err { IfErr result (IsFaultOf circuit) }
{
    let here = address_of(net, circuit, asked.host, port.local_port)?;
    let peer = address_of(net, circuit, port.peer_host.as_str(), port.peer_port)?;
    // A socket of one family sends nothing to an address of the other.
    if here.is_ipv4() != peer.is_ipv4() {
        return Err(OpenFault::Socket(circuit));
    }
    let mut socket = match socket_at::<S>(net, asked.among, here) {
        Ok(socket) => socket,
        Err(error) => return Err(fault_of(circuit, &error)),
    };
    let senders = asked.senders;
    restrict(&mut socket, senders, peer);
    readiness.watch(circuit, &mut socket);
    Ok(Endpoint {
        socket,
        here: AtStart::of(&here),
        peer,
        senders,
    })
}

// Opens the socket of a circuit, if it has ports.
fn endpoint_of<S: Socket>(
    net: &impl Net,
    readiness: &mut Readiness,
    circuit: u8,
    port: &Option<Port>,
    asked: &SocketsAsked,
) -> Result<Option<Endpoint<S>>, OpenFault>
    requires { (1 ≤ circuit) × (circuit ≤ 30) }
    ensures ok { IfOk result (IsEndpoint asked.now.host.now asked.now.senders port.now) }
    ensures err { IfErr result (IsFaultOf circuit) }
    ensures some { IfErr result (λ _. IsSomeAnd port.now (λ _. ⊤)) }
{
    match port {
        Some(port) => Ok(Some(open_endpoint(net, readiness, circuit, port, asked)?)),
        None => Ok(None),
    }
}

// Receives a datagram of an accepted sender.
//
// Discards at most MOST_STRANGERS others, then returns none, so a flood cannot stall the turn. (It is apart
// from the plain receive, which reads no address.)
#[inline(never)]
fn receive_accepted<S: Socket>(
    socket: &mut S,
    senders: SourceFilter,
    peer: &SocketAddr,
    first: Option<SocketAddr>,
    came: &mut Option<SocketAddr>,
    room: &mut [u8],
) -> Result<Option<usize>, PortFault>
    ensures bound { IfOk result (λ got. IfSome got (λ n. n ≤ length room.new)) }
    ensures received { ReceivesFrom S.receives (IsAccepted senders peer.now first) socket.old socket.new
        result room.new }
    ensures sender { IfOk result (λ got. IfSome got (λ len. IsSenderOf S.receives socket.new room.new len
        came.new)) }
    ensures none { result ≡ Ok None → came.new ≡ None → S.receives socket.old socket.new (Ok None) room.new }
{
    for _turn in 0..MOST_STRANGERS {
        match socket.receive(room)? {
            Some((len, from)) => {
                *came = Some(from);
                if senders.accepts(from, *peer, first) {
                    return Ok(Some(len));
                }
            }
            None => return Ok(None),
        }
    }
    Ok(None)
}

// Receives a datagram of an accepted sender; if all are accepted, the first one.
#[inline]
fn receive_from<S: Socket>(
    socket: &mut S,
    senders: SourceFilter,
    peer: &SocketAddr,
    first: Option<SocketAddr>,
    came: &mut Option<SocketAddr>,
    room: &mut [u8],
) -> Result<Option<usize>, PortFault>
    ensures bound { IfOk result (λ got. IfSome got (λ n. n ≤ length room.new)) }
    ensures received { ReceivesFrom S.receives (IsAccepted senders peer.now first) socket.old socket.new
        result room.new }
    ensures sender { senders ≢ SourceFilter.Any → IfOk result (λ got. IfSome got (λ len.
        IsSenderOf S.receives socket.new room.new len came.new)) }
    ensures none { result ≡ Ok None → came.new ≡ None → S.receives socket.old socket.new (Ok None) room.new }
{
    match senders {
        SourceFilter::Any => socket.receive_any(room),
        SourceFilter::Host | SourceFilter::Peer | SourceFilter::First => {
            receive_accepted(socket, senders, peer, first, came, room)
        }
    }
}

// Receives at a circuit's socket, by a call of the system. It found none there if it answers so and no sender
// came.
fn ask_at<S: Socket>(
    endpoints: &mut [Option<Endpoint<S>>],
    firsts: &mut FirstSenders,
    circuit: CircuitNo,
    room: &mut [u8],
) -> Result<Option<usize>, PortFault>
    requires { length endpoints.old ≡ 30 }
    ensures bound { IfOk result (λ got. IfSome got (λ n. n ≤ length room.new)) }
    ensures own { EndpointReceives S.receives (first_of firsts.old circuit) circuit endpoints.old
        endpoints.new result room.new }
    ensures sender { IfOk result (λ got. IfSome got (λ len. EndpointSender S.receives circuit endpoints.new
        room.new len firsts.new.came)) }
    ensures none { result ≡ Ok None → firsts.new.came ≡ None
        → EndpointFindsNone S.receives circuit endpoints.old endpoints.new room.new }
    ensures known { firsts.new.known ≡ firsts.old.known }
    ensures others { KeepsOthers circuit endpoints.old endpoints.new }
{
    firsts.came = None;
    let first = firsts.of(circuit);
    let at = usize::from(circuit.get()) - 1;
    match &mut endpoints[at] {
        Some(endpoint) => receive_from(
            &mut endpoint.socket,
            endpoint.senders,
            &endpoint.peer,
            first,
            &mut firsts.came,
            room,
        ),
        None => Ok(None),
    }
}

// Receives at a circuit's socket, by a call of the system, unless it gave enough since the last look. (What
// came to it then stays there, and the next receive asks.)
#[inline(never)]
fn ask_more<S: Socket>(
    endpoints: &mut [Option<Endpoint<S>>],
    readiness: &mut Readiness,
    given: &GivenOctets,
    firsts: &mut FirstSenders,
    circuit: CircuitNo,
    room: &mut [u8],
) -> Result<Option<usize>, PortFault>
    requires { length endpoints.old ≡ 30 }
    ensures bound { IfOk result (λ got. IfSome got (λ n. n ≤ length room.new)) }
    ensures enough { HasGivenEnough given.now circuit
        → (result ≡ Ok None) × (endpoints.new ≡ endpoints.old) × (readiness.new ≡ readiness.old) }
    ensures own { EndpointReceives S.receives (first_of firsts.old circuit) circuit endpoints.old
        endpoints.new result room.new ⊎ ((result ≡ Ok None) × (endpoints.new ≡ endpoints.old)) }
    ensures asks { ¬ HasGivenEnough given.now circuit → EndpointReceives S.receives
        (first_of firsts.old circuit) circuit endpoints.old endpoints.new result room.new }
    ensures rests { ¬ HasGivenEnough given.now circuit → (rests_of readiness.new.rests (circuit - 1) ≡ 0)
        ⊎ ((rests_of readiness.new.rests (circuit - 1) ≡ rests_of readiness.old.most (circuit - 1))
        × EndpointFindsNone S.receives circuit endpoints.old endpoints.new room.new) }
    ensures others_rest { (k : ℕ) → k ≢ circuit - 1
        → rests_of readiness.new.rests k ≡ rests_of readiness.old.rests k }
    ensures most { readiness.new.most ≡ readiness.old.most }
    ensures receives { readiness.new.receives ≡ readiness.old.receives }
    ensures sender { IfOk result (λ got. IfSome got (λ len. EndpointSender S.receives circuit endpoints.new
        room.new len firsts.new.came)) }
    ensures known { firsts.new.known ≡ firsts.old.known }
    ensures others { KeepsOthers circuit endpoints.old endpoints.new }
{
    if given.are_enough(circuit) {
        return Ok(None);
    }
    let answer = ask_at(endpoints, firsts, circuit, room);
    let none_there = matches!(answer, Ok(None)) && firsts.came.is_none();
    readiness.rest_after(circuit, none_there);
    answer
}

// Receives at the socket of a circuit, unless it rests or gave enough since the last look. (What may ask the
// system is apart, since most receives do not.)
#[inline]
fn receive_more<S: Socket>(
    endpoints: &mut [Option<Endpoint<S>>],
    readiness: &mut Readiness,
    given: &GivenOctets,
    firsts: &mut FirstSenders,
    circuit: CircuitNo,
    room: &mut [u8],
) -> Result<Option<usize>, PortFault>
    requires { length endpoints.old ≡ 30 }
    ensures bound { IfOk result (λ got. IfSome got (λ n. n ≤ length room.new)) }
    ensures enough { HasGivenEnough given.now circuit
        → (result ≡ Ok None) × (endpoints.new ≡ endpoints.old) }
    ensures own { EndpointReceives S.receives (first_of firsts.old circuit) circuit endpoints.old
        endpoints.new result room.new ⊎ ((result ≡ Ok None) × (endpoints.new ≡ endpoints.old)) }
    ensures turn { TakesTurn readiness.old readiness.new circuit (HasGivenEnough given.now circuit)
        (EndpointReceives S.receives (first_of firsts.old circuit) circuit endpoints.old endpoints.new result
        room.new) (EndpointFindsNone S.receives circuit endpoints.old endpoints.new room.new) result }
    ensures sender { IfOk result (λ got. IfSome got (λ len. EndpointSender S.receives circuit endpoints.new
        room.new len firsts.new.came)) }
    ensures known { firsts.new.known ≡ firsts.old.known }
    ensures others { KeepsOthers circuit endpoints.old endpoints.new }
    ensures in_range { (1 ≤ circuit) × (circuit ≤ 30) }
{
    if readiness.rests(circuit) {
        return Ok(None);
    }
    ask_more(endpoints, readiness, given, firsts, circuit, room)
}

// Sends by the socket of a circuit, to its peer.
#[inline(never)]
fn send_from<S: Socket>(
    endpoints: &mut [Option<Endpoint<S>>],
    circuit: CircuitNo,
    datagram: &[u8],
) -> Result<(), PortFault>
    requires { length endpoints.old ≡ 30 }
    ensures own { EndpointSends S.sends circuit endpoints.old endpoints.new datagram.now result }
    ensures others { KeepsOthers circuit endpoints.old endpoints.new }
    ensures some { 1 ≤ circuit }
{
    let number = usize::from(circuit.get());
    match &mut endpoints[number - 1] {
        Some(endpoint) => endpoint.socket.send(datagram, endpoint.peer),
        None => Ok(()),
    }
}

// Counts a fault, if this is one.
#[inline]
fn count_fault<T>(failed: &mut u64, came: &Result<T, PortFault>)
    ensures { CountsFault failed.old failed.new came.now }
{
    if came.is_err() {
        *failed = failed.saturating_add(1);
    }
}

impl<S: Socket> UdpPorts<S> {
    /// Opens the sockets of the circuits that have ports.
    ///
    /// In rising order, each at `host` and its local port: the one at the first descriptor `among` these that
    /// has this address, else a new one.
    pub fn open(
        net: &impl Net,
        alloc: Global,
        host: &str,
        ports: &[Option<Port>; 30],
        senders: SourceFilter,
        among: Descriptors,
    ) -> Result<UdpPorts<S>, OpenFault>
        ensures ok { IfOk result (λ opened. HasEndpoints host.now senders ports.now
            opened.endpoints.items 30) }
        ensures fresh { IfOk result (λ p. IsFresh p.endpoints.items p.opened.value.items p.log.calls) }
        ensures err { IfErr result (BlamesPorts ports.now) }
    {
        let Ok(mut endpoints) = Vec::with_capacity(alloc, CIRCUITS) else {
            return Err(OpenFault::OutOfMemory);
        };
        let mut readiness = Readiness::open(net, alloc);
        let asked = SocketsAsked {
            host,
            senders,
            among,
        };
        for number in 1..=30u8 {
            let port = &ports[usize::from(number) - 1];
            let endpoint = endpoint_of(net, &mut readiness, number, port, &asked)?;
            endpoints.push_reserved(endpoint);
        }
        let opened = AtStart::of(&endpoints);
        let log = Log::new();
        Ok(UdpPorts {
            endpoints,
            readiness,
            given: GivenOctets::new(),
            firsts: FirstSenders::new(),
            follows_calls: matches!(senders, SourceFilter::First),
            receive_failed: 0,
            send_failed: 0,
            opened,
            at_look: AtStart::of(&log),
            log,
        })
    }
}

impl<S: Socket> UdpPorts<S> {
    /// From now on a circuit that gave 65,536 octets since the ports last looked gives none until they look
    /// again: what is received between two records of the trunk has room in its log.
    pub fn limit(&mut self)
        ensures given { self.new.given ≡ record { counts = replicate 30 0; limited = true } }
        ensures endpoints { self.new.endpoints ≡ self.old.endpoints }
        ensures log { self.new.log ≡ self.old.log }
    {
        self.given.limit();
        self.at_look = AtStart::of(&self.log);
    }
}

impl<S: Socket> Ports for UdpPorts<S> {
    ghost use Rattle.gw_udp.specs.Telling.{HasLooked, told};

    ghost tells = { told };

    fn look(&mut self)
        ensures tells { told self.new ≡ told self.old }
        ensures looked { HasLooked self.old self.new }
    {
        self.readiness.look();
        self.given.clear();
        self.at_look = AtStart::of(&self.log);
    }

    fn follows_calls(&self) -> bool {
        self.follows_calls
    }

    fn judge(&mut self, circuit: CircuitNo, accepted: bool)
        ensures tells { told self.new ≡ told self.old }
        ensures firsts { self.new.firsts ≡ record self.old.firsts {
          known = slice_set self.old.firsts.known (circuit - 1)
              (known_after (first_of self.old.firsts circuit) self.old.firsts.came accepted);
        } }
        ensures endpoints { self.new.endpoints ≡ self.old.endpoints }
    {
        self.firsts.judge(circuit, accepted);
    }

    fn close(&mut self, circuit: CircuitNo)
        ensures tells { told self.new ≡ told self.old }
        ensures firsts { self.new.firsts ≡ record self.old.firsts {
          known = slice_set self.old.firsts.known (circuit - 1) None;
        } }
        ensures endpoints { self.new.endpoints ≡ self.old.endpoints }
    {
        self.firsts.close(circuit);
    }

    #[inline]
    fn receive(&mut self, circuit: CircuitNo, room: &mut [u8]) -> Result<Option<usize>, PortFault>
        ensures bound { IfOk result (λ got. IfSome got (λ n. n ≤ length room.new)) }
        ensures receives { Receives (told self.old) (told self.new) circuit result room.new }
        ensures counts { CountsFault self.old.receive_failed self.new.receive_failed result }
        ensures sends_stay { KeepsSends (told self.old) (told self.new) }
        ensures enough { HasGivenEnough self.old.given circuit → (result ≡ Ok None)
            × (self.new.endpoints.items ≡ self.old.endpoints.items) }
        ensures own { EndpointReceives S.receives (first_of self.old.firsts circuit) circuit
            self.old.endpoints.items self.new.endpoints.items result room.new
            ⊎ ((result ≡ Ok None) × (self.new.endpoints.items ≡ self.old.endpoints.items)) }
        ensures turn { TakesTurn self.old.readiness self.new.readiness circuit
            (HasGivenEnough self.old.given circuit) (EndpointReceives S.receives
            (first_of self.old.firsts circuit) circuit self.old.endpoints.items self.new.endpoints.items
            result room.new) (EndpointFindsNone S.receives circuit self.old.endpoints.items
            self.new.endpoints.items room.new) result }
        ensures sender { IfOk result (λ got. IfSome got (λ len. EndpointSender S.receives circuit
            self.new.endpoints.items room.new len self.new.firsts.came)) }
        ensures known { self.new.firsts.known ≡ self.old.firsts.known }
        ensures given { self.new.given ≡ record self.old.given {
          counts = given_after self.old.given.counts circuit result;
        } }
        ensures at_look { self.new.at_look ≡ self.old.at_look }
        ensures others { KeepsOthers circuit self.old.endpoints.items self.new.endpoints.items }
    {
        let received = receive_more(
            self.endpoints.as_mut_slice(),
            &mut self.readiness,
            &self.given,
            &mut self.firsts,
            circuit,
            room,
        );
        self.given.count(circuit, &received);
        self.log.received(circuit, &received, room);
        count_fault(&mut self.receive_failed, &received);
        received
    }

    fn send(&mut self, circuit: CircuitNo, datagram: &[u8]) -> Result<(), PortFault>
        ensures sends { Sends (told self.old) (told self.new) circuit result datagram.now }
        ensures counts { CountsFault self.old.send_failed self.new.send_failed result }
        ensures receives_stay { KeepsReceives (told self.old) (told self.new) }
        ensures own { EndpointSends S.sends circuit self.old.endpoints.items self.new.endpoints.items
            datagram.now result }
        ensures given { self.new.given ≡ self.old.given }
        ensures firsts { self.new.firsts ≡ self.old.firsts }
        ensures at_look { self.new.at_look ≡ self.old.at_look }
        ensures others { KeepsOthers circuit self.old.endpoints.items self.new.endpoints.items }
    {
        let sent = send_from(self.endpoints.as_mut_slice(), circuit, datagram);
        self.log.sent(circuit, datagram, &sent);
        count_fault(&mut self.send_failed, &sent);
        sent
    }
}
