// With what a book is filled.
ghost use Rattle.std.specs.Prelude.{◌≡◌};
ghost use Rattle.loads.specs.Load.{load_of};

// Of one limit, or the worst: each buy better than all before it, so that a merge moves all that it has, and no two limits equal; in both all but
// the last are buys, and all are filled by the last. Or mixed: buys and sells by turns, 512 limits a side.
#[derive(Clone, Copy, Debug, PartialEq, Eq)]
pub enum Load {
    OneLimit,
    Worst,
    Mixed,
}

impl From<u8> for Load {
    ghost from_gives = { λ byte r. r ≡ load_of byte };

    fn from(byte: u8) -> Load {
        match byte {
            b'o' => Load::OneLimit,
            b'w' => Load::Worst,
            _ => Load::Mixed,
        }
    }
}
