// What all layers share, as document 01 has it: the bounds, numbered answers, splicing, big-endian numbers, tables by a rule. No
// functions but a refusal's number: crate `base` has the rest.
#![tactic(auto)]

ghost use Rattle.std.specs.Prelude.{◌≡◌};

// The bounds; specs/Bounds.antt says what each is.
pub const LEAST_L: usize = 12;

pub const MOST_L: usize = 8192;

pub const MOST_F: usize = 256;

pub const PLACE: usize = 12288;

pub const MOST_K: usize = 207;

pub const PARITY: usize = 48;

pub const MOST_M: usize = 5;

pub const MOST_MTU: usize = 16384;

// Why a call refuses. Each case is worth document 01's number, the last two document 02's; specs/Refusal.antt has them for the definitions.
#[derive(Clone, Copy, Debug, PartialEq, Eq, Hash)]
pub enum Refusal {
    Room = 1,
    Short = 2,
    Sync = 3,
    Hcrc = 4,
    Length = 5,
    Address = 6,
    Count = 7,
    Size = 8,
    Mismatch = 9,
    Spoiled = 10,
    Late = 11,
    Repeat = 12,
    Damaged = 13,
    State = 14,
    AfShort = 20,
    AfSync = 21,
    AfLength = 22,
    AfMajor = 23,
    AfType = 24,
    AfCrc = 25,
    Overrun = 30,
    Twice = 31,
    Depth = 32,
    Ptr = 33,
    Absent = 34,
    Whole = 35,
    Settings = 40,
    TooMany = 41,
    Index = 42,
    Bits = 43,
    Zero = 44,
    Width = 60,
    Figure = 61,
}

impl From<Refusal> for u8 {
    ghost use Rattle.base_rules.specs.Refusal.{number};

    ghost from_gives = { λ e n. n ≡ number e };

    #[tactic(auto, unfolding(crate::specs::Refusal::number))]
    fn from(e: Refusal) -> u8 {
        e as u8
    }
}
