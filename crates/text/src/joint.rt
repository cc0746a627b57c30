// Joint actions that can be done with given counts. Test after test: where three tests by && meet, the check finds no proof of a test of three.
ghost use Rattle.std.specs.Prelude.{◌≡◌};
ghost use Rattle.text.specs.Job as J;

use block::joint::digit;
use block::layout;

// Whether the joint action can be done with these counts.
pub fn possible(counts: [usize; layout::MAX_AGENTS], joint: usize) -> bool
    ensures { result ≡ J.possible counts joint }
{
    if counts[0] <= digit(joint, 0) {
        return false;
    }
    if counts[1] <= digit(joint, 1) {
        return false;
    }
    digit(joint, 2) < counts[2]
}

// Whether each agent does its last action.
pub fn last(counts: [usize; layout::MAX_AGENTS], joint: usize) -> bool
    ensures { result ≡ J.last_joint counts joint }
{
    if digit(joint, 0) + 1 != counts[0] {
        return false;
    }
    if digit(joint, 1) + 1 != counts[1] {
        return false;
    }
    digit(joint, 2) + 1 == counts[2]
}
