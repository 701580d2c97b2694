//! Counts of values.

ghost use Rattle.std.specs.Prelude.{◌≡◌, ◌≤◌, ◌<◌, ◌+◌, ◌↔◌, IsNone, IfSome};
ghost use Rattle.st_pool.specs.Limits.{most_values};
ghost use Rattle.st_pool.specs.Loaded.{value_count as count_of};

use st_kernel_text::Assignment;

/// What is left of the room for values after these assignments; none where they have more values.
pub fn room_after(room: usize, assignments: &[Assignment]) -> Option<usize>
    ensures none { IsNone result ↔ (room < count_of assignments.now) }
    ensures some { IfSome result (λ left. count_of assignments.now + left ≡ room) }
{
    let mut left = room;
    for assignment in assignments {
        let count = assignment.values.len();
        if left < count {
            return None;
        }
        left -= count;
    }
    Some(left)
}

/// How many values these assignments have.
pub fn value_count(assignments: &[Assignment]) -> usize
    requires { count_of assignments.now ≤ most_values }
    ensures { result ≡ count_of assignments.now }
{
    let mut count = 0;
    for assignment in assignments {
        count += assignment.values.len();
    }
    count
}
