ghost use Rattle.std.specs.Prelude.{◌≡◌, ◌≤◌, ◌+◌, Some, length};
ghost use Rattle.log_files.specs.Stores.{IsWrittenAt};

use log_files::{Loaded, LogFiles, Pair, PairContents, Store, StoreFault, newest};
use std::process::Abort;
use std::test::Fail;

// The octets of each file: those of a head, and some more.
const ROOM: usize = 64;

// As many octets as are written to a file at most.
const ENOUGH: usize = 1_000;

// What a log has: its state, and the records behind it. Nothing at first.
type Kept = Option<(&'static [u8], &'static [u8])>;

// What is written to a log in turn, and what it has then.
#[derive(Clone, Copy)]
enum Step {
    Checkpoint(&'static [u8], Kept),
    Append(&'static [u8], Kept),
}

const STEPS: [Step; 6] = [
    Step::Checkpoint(b"one", Some((b"one", b""))),
    Step::Append(b"ab", Some((b"one", b"ab"))),
    Step::Append(b"cde", Some((b"one", b"abcde"))),
    Step::Checkpoint(b"second", Some((b"second", b""))),
    Step::Append(b"f", Some((b"second", b"f"))),
    Step::Checkpoint(b"3", Some((b"3", b""))),
];

// Octets in memory, of which so many more are written before a write fails.
#[derive(Drop)]
struct MemStore<'a> {
    octets: &'a mut [u8],
    left: usize,
    failed: bool,
}

// Puts octets in the place of others.
fn put_at(room: &mut [u8], at: usize, octets: &[u8])
    requires { at + length octets.now ≤ length room.old }
    ensures { IsWrittenAt at octets.now room.old room.new }
{
    room[at..at + octets.len()].copy_from_slice(octets);
}

impl Store for MemStore<'_> {
    ghost holds = { λ s. Some s.octets.now };

    ghost room = { λ s. length s.octets.now };

    ghost failed = { λ s. s.failed };

    fn room(&self) -> u64 {
        self.octets.len() as u64
    }

    fn write_at(&mut self, at: u64, octets: &[u8]) -> Result<(), StoreFault> {
        let n = self.left.min(octets.len());
        put_at(self.octets, at as usize, &octets[..n]);
        self.left -= n;
        if n < octets.len() {
            self.failed = true;
            return Err(StoreFault);
        }
        Ok(())
    }

    fn write_head(&mut self, head: &[u8; 24]) -> Result<(), StoreFault> {
        if self.left < head.len() {
            self.left = 0;
            self.failed = true;
            return Err(StoreFault);
        }
        put_at(self.octets, 0, head);
        self.left -= head.len();
        Ok(())
    }
}

// A store of these octets, of which so many more are written.
fn store(octets: &mut [u8; ROOM], left: usize) -> MemStore<'_>
    ensures { length result.octets.now ≡ 64 }
{
    MemStore {
        octets,
        left,
        failed: false,
    }
}

// Writes the steps to a log in two pairs of files, each of which takes so many octets. Returns what the log had
// before the step that failed, and what it has behind that.
fn write_steps<'a>(
    rt: &impl Abort,
    first: Pair<MemStore<'a>>,
    second: Pair<MemStore<'a>>,
) -> (Kept, Kept) {
    let mut log = LogFiles::open(second, first, 0, &[]);
    let mut had = None;
    for step in STEPS {
        let (is_written, then) = match step {
            Step::Checkpoint(state, then) => {
                assert!(rt; log.can_take(state.len()));
                (log.checkpoint(state).is_ok(), then)
            }
            Step::Append(octets, then) => {
                assert!(rt; log.has_room(octets.len()));
                (log.append(octets).is_ok(), then)
            }
        };
        if !is_written {
            return (had, then);
        }
        had = then;
    }
    (had, had)
}

// Whether this was kept, and nothing else.
fn is_kept(found: &Option<Loaded<'_>>, kept: Kept) -> bool {
    match (found, kept) {
        (None, None) => true,
        (Some(Loaded::First(found) | Loaded::Second(found)), Some((state, records))) => {
            found.state == state && found.records == records
        }
        _ => false,
    }
}

// Each of the files takes so many octets.
fn cut(rt: &impl Abort, left: [usize; 4]) {
    let mut a = [0; ROOM];
    let mut b = [0; ROOM];
    let mut c = [0; ROOM];
    let mut d = [0; ROOM];
    let (had, then) = write_steps(
        rt,
        Pair::new(store(&mut a, left[0]), store(&mut b, left[1])),
        Pair::new(store(&mut c, left[2]), store(&mut d, left[3])),
    );
    let first = PairContents {
        state: &a,
        records: &b,
    };
    let second = PairContents {
        state: &c,
        records: &d,
    };
    match newest(&first, &second) {
        Ok(found) => assert!(rt; is_kept(&found, had) || is_kept(&found, then)),
        Err(_) => assert!(rt; false),
    }
}

// One of the files fails behind each number of its octets: the log has what it had before that write, or what
// was written.
#[test]
fn a_cut_log_is_loaded(rt: HostRuntime) -> Result<(), Fail> {
    for left in 0..120 {
        cut(&rt, [left, ENOUGH, ENOUGH, ENOUGH]);
        cut(&rt, [ENOUGH, left, ENOUGH, ENOUGH]);
        cut(&rt, [ENOUGH, ENOUGH, left, ENOUGH]);
        cut(&rt, [ENOUGH, ENOUGH, ENOUGH, left]);
    }
    Ok(())
}
