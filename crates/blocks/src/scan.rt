// The scan that the leaves share: blocks of bytes, one after another, while a test holds.
ghost use Rattle.std.specs.Prelude.{ℕ, ◌+◌, ◌≤◌, ◌<◌};
ghost use Rattle.blocks.specs.Scan.{Passed};

// The place behind the blocks of k places from a place on, before an end, that a test holds of: it is given a block's first place.
// A `while`, as the step is a block and the first test that fails is the end: `step_by` with `take_while` says no more, and loses the place.
pub fn past_blocks<F: Fn(usize) -> bool>(from: usize, end: usize, k: usize, test: F) -> usize
    requires { (from ≤ end) × (0 < k) × ((i : ℕ) → i + k ≤ end → F.pre test i) }
    ensures { Passed (F.post test) end k from result }
{
    let mut i: usize = from;
    while k <= end - i && test(i) {
        i += k;
    }
    i
}
