// The arrays' lengths, for proofs: a slice of an array tells its length. No code is made of it.
ghost use Rattle.std.specs.Prelude.{◌≡◌, length};
ghost use Rattle.memory.specs.Memory.{before};
ghost use Rattle.memory.specs.Laws.{Sized};

use crate::{Levels, Marks, Numbers, Times};

fn count<T>(s: &[T]) -> usize
    ensures { result ≡ length s.now }
{
    s.len()
}

fn sized_array<T, const N: usize>(l: &[T; N])
    ensures { length l.now ≡ N }
{
    count(l);
}

// Tells a proof how long the four arrays are.
pub fn sized(times: &Times, levels: &Levels, marks: &Marks, numbers: &Numbers)
    ensures { Sized (before times.now levels.now marks.now numbers.now) }
{
    sized_array(times);
    sized_array(levels);
    sized_array(marks);
    sized_array(numbers);
}
