// Filled front: how many entries of a list a total covers (01 "Outcomes", last paragraph).
ghost use Rattle.std.specs.Prelude.{◌≡◌, length};
ghost use Rattle.fills.specs.Front.{front};

// How many entries the longest front part has whose sum is at most the total. What is left of the total is kept, so that no sum can wrap.
pub fn front_length(entries: &[u64], total: u64) -> usize
    ensures { result ≡ length (front total entries.now) }
{
    let mut rest = total;
    for (i, &x) in entries.iter().enumerate() {
        if rest < x {
            return i;
        }
        rest -= x;
    }
    entries.len()
}
