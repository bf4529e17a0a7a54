// Where the parts of bytes stand, as the records of a list and the blocks of a journal.
ghost use Rattle.std.specs.Prelude.{◌+◌, ◌≤◌, min, ◌≡◌};

// Where the part of a size at byte `at` of n ends: a short rest is the last part.
// Kept: a function of its own, whose two edits hold where a listing's blocks 0 and 1 end; further on chunks cuts blocks and records.
pub fn part_end(size: usize, at: usize, n: usize) -> usize
    requires { at ≤ n }
    ensures { result ≡ min n (at + size) }
{
    if n - at <= size {
        return n;
    }
    at + size
}
