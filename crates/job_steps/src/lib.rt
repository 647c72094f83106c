// What a step over a job says, and what follows of its listing; the state
// between two steps and what a step gives. It answers with none where the job is
// over, or with a refusal and its place.
#![tactic(auto)]

ghost use Rattle.std.specs.Prelude.{◌*◌, ◌≤◌, ◌≡◌};
ghost use Rattle.taxa.specs.Most.{most};
ghost use Rattle.tree.specs.Tree.{rows};
ghost use Rattle.job_steps.specs.Runs.{first};

// Room for any job: bytes for the table and bytes for one move's lines. That
// with taxa::PARTITIONS numbers they are enough is the law room-enough in
// proofs/GoingLaws.antt, and that no job is then refused for room is the law
// going-field there.
pub const TABLE: usize = 250;

pub const LINES: usize = 8192;

// How far a job was read: the offset of the next field, the number of taxa,
// how many partitions and how many moves were read.
#[repr(C)]
#[derive(Clone, Copy)]
pub struct State {
    pub at: usize,
    pub taxa: usize,
    pub parts: usize,
    pub moves: u64,
}

// What a step past a field gives: the next state, and how many bytes of lines
// were written.
#[derive(Clone, Copy)]
pub struct Next {
    pub state: State,
    pub wrote: usize,
}

// The state before the first field.
pub fn start() -> State
    ensures { result ≡ first }
{
    State {
        at: 0,
        taxa: 0,
        parts: 0,
        moves: 0,
    }
}

// How many bytes the table of a tree on n taxa has.
pub fn table_bytes(n: usize) -> usize
    requires { n ≤ most }
    ensures { result ≡ 2 * rows n }
{
    2 * (2 * n).saturating_sub(3)
}
