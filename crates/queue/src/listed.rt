// The ranked queue as order numbers (01 "Outcomes", ranked queue).
ghost use Rattle.std.specs.Prelude.{◌≡◌, ◌++◌, ◌≤◌, length, drop};
ghost use Rattle.queue.specs.RankNumbers.{along};

use crate::ranks::place_of_rank;
use terms::Place;

// The numbers of a queue's orders, from the front of a list.
pub fn list_numbers<'a>(list: &mut [u32], ranks: &'a [u64], numbers: &'a [u32; Place::COUNT])
    requires { length ranks.now ≤ length list.old }
    ensures { list.new ≡ along numbers.now ranks.now ++ drop (length ranks.now) list.old }
{
    for i in 0..ranks.len() {
        list[i] = numbers[place_of_rank(ranks[i])];
    }
}
