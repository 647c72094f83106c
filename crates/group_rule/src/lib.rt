// The distances of a move over partitions, from how many of the groups about
// it each partition meets.
#![tactic(auto)]

ghost use Rattle.std.specs.Prelude.{◌≤◌, ◌-◌, ◌≡◌, not, true, false, eqb, length};
ghost use Rattle.std.specs.Int.Bits.{bit_and};
ghost use Rattle.taxa.specs.Sets.{tally, some};
ghost use Rattle.moves.specs.Groups as groups;
ghost use Rattle.moves.specs.Between.{by_groups};
ghost use Rattle.group_rule.specs.Between.{all_meet, Few, Judges};

// Whether the group g meets y.
#[tactic(auto, unfolding(taxa::specs::Sets::some))]
fn meets(g: u64, y: u64) -> bool
    ensures { result ≡ some (bit_and g y) }
{
    g & y != 0
}

// How many of the groups on gs meet y.
#[tactic(auto, using(crate::proofs::Judging::count_meeting))]
fn count_met(gs: &[u64], y: u64) -> usize
    ensures { result ≡ groups.met y gs.now }
{
    let mut r = 0;
    for g in gs {
        r += meets(*g, y) as usize;
    }
    r
}

// Whether a group on gs meets y: the first that does ends the search.
fn some_met(gs: &[u64], y: u64) -> bool
    ensures { result ≡ not (eqb (groups.met y gs.now) 0) }
{
    gs.iter().any(|g| meets(*g, y))
}

// Whether every group on gs meets y: the first that does not ends the search.
fn all_met(gs: &[u64], y: u64) -> bool
    ensures { result ≡ all_meet y gs.now }
{
    gs.iter().all(|g| meets(*g, y))
}

// How many more than two of the groups on gs meet y: two groups or fewer are
// not counted.
#[tactic(auto, using(moves::proofs::Ways::GroupLists::met_le))]
fn above_two(gs: &[u64], y: u64) -> usize
    ensures { result ≡ groups.met y gs.now - 2 }
{
    if gs.len() <= 2 {
        return 0;
    }
    count_met(gs, y).saturating_sub(2)
}

// The distance of an NNI over y, gs and hs being the groups at the two ends of
// its row: 2 where all four are met, else 0.
#[tactic(auto, using(crate::proofs::Judging::four_met))]
fn around(gs: &[u64], hs: &[u64], y: u64) -> u64
    requires { (length gs.now ≡ 2) × (length hs.now ≡ 2) }
    ensures { result ≡ by_groups true gs.now hs.now y }
{
    if !all_met(gs, y) {
        return 0;
    }
    if !all_met(hs, y) {
        return 0;
    }
    2
}

// The distance over y by the rule: hs, of an SPR two groups at most, is tested
// first, so that gs is counted only where it matters.
#[tactic(auto, using(moves::proofs::Ways::GroupLists::met_le), unfolding(moves::specs::Groups::rule))]
fn rule(gs: &[u64], hs: &[u64], y: u64) -> u64
    requires { (length gs.now ≤ 1000) × (length hs.now ≤ 1000) }
    ensures { result ≡ by_groups false gs.now hs.now y }
{
    if !some_met(hs, y) {
        return 0;
    }
    let k = count_met(gs, y);
    if k == 0 {
        return 0;
    }
    2 * (k.saturating_sub(2) + above_two(hs, y)) as u64
}

// The distance over y, from the groups gs and hs on the two sides; nni says
// which rule holds.
// Kept: a closure for the rule is no plainer, since `by_groups` and its laws ask nni too.
pub fn distance(nni: bool, gs: &[u64], hs: &[u64], y: u64) -> u64
    requires { Few nni gs.now hs.now }
    ensures { result ≡ by_groups nni gs.now hs.now y }
{
    if nni {
        return around(gs, hs, y);
    }
    rule(gs, hs, y)
}

// Writes the distance over each of ys at the start of out; of how many it is
// 0.
pub fn distance_each(nni: bool, gs: &[u64], hs: &[u64], ys: &[u64], out: &mut [u64]) -> usize
    requires { (Few nni gs.now hs.now) × (length ys.now ≤ length out.old) }
    ensures { let f = by_groups nni gs.now hs.now in
        Judges f ys.now out.old result out.new }
{
    let mut r = 0;
    for (i, y) in ys.iter().enumerate() {
        let d = distance(nni, gs, hs, *y);
        out[i] = d;
        r += (d == 0) as usize;
    }
    r
}
