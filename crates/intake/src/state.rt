// The state of an intake in plain numbers, and tests of its last chunk.

ghost use Rattle.std.specs.Prelude.{◌≡◌, ◌+◌, ◌*◌, ◌<◌, ◌≤◌, length};
ghost use Rattle.intake.specs.state.State.{spans, waits};

use endian::read_u64;
use sharding::Sharding;

// An intake between two calls. Places count from the end of the shard index. Any values; the calls judge them.
#[repr(C)]
#[derive(Clone, Copy)]
pub struct Intake {
    pub spec: Sharding,
    pub shard: u64,
    // the lengths of the output and of the second buffer
    pub output: usize,
    pub waiting: usize,
    // the open minishard, how many of its chunks were announced, and the last id
    pub minishard: u64,
    pub count: usize,
    pub last: u64,
    // where its data began, and where the next byte goes
    pub begin: usize,
    pub next: usize,
    // the bytes that are owed
    pub owed: usize,
    // 0 from the opening on, 1 after the close
    pub phase: u8,
}

// What came of the open minishard or is owed holds a last chunk of this size, and no more than an only one.
#[tactic(auto, using(crate::proofs::state::Spanning::spanning))]
fn holds_size(state: Intake, size: usize) -> bool
    requires { (state.begin ≤ state.next) × (state.next + state.owed < 18446744073709551616) }
    ensures { result ≡ spans state size }
{
    let came = state.next + state.owed - state.begin;
    (size <= came) & ((1 < state.count) | (size == came))
}

// The last pair is the last chunk's.
#[tactic(auto, using(crate::proofs::state::Spanning::spanning))]
pub fn holds_last(state: Intake, waiting: &[u8]) -> bool
    requires count_nonzero { (0 < state.count) × (16 * state.count ≤ length waiting.now) }
    requires begin_le_next { (state.begin ≤ state.next) × (state.next + state.owed < 18446744073709551616) }
    ensures { result ≡ waits state waiting.now }
{
    let at = 16 * (state.count - 1);
    let id = read_u64(waiting, at);
    let size = read_u64(waiting, at + 8) as usize;
    let fits = holds_size(state, size);
    (id == state.last) & ((state.owed <= size) & fits)
}
