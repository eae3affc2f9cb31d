// The 34 tags and their numbers.
ghost use Rattle.std.specs.Prelude.{◌≡◌, ◌+◌, ◌*◌, ◌≤◌, ◌<◌};
ghost use Rattle.rows.specs.Tags.{tag_number};
ghost use Rattle.rows.specs.internal.Packed.{packed_number};

// The numbers of the tags that rules name: numbers and no enum, since a tag's number is its column in the next-row table.
pub const ST: u8 = 0;

pub const DTM: u8 = 3;

pub const N1: u8 = 7;

pub const HL: u8 = 12;

pub const LIN: u8 = 13;

pub const NTE: u8 = 27;

pub const NCA: u8 = 32;

pub const SE: u8 = 33;

// The number that no tag has, above those of all tags: a number and no `None`, as the definition `tag_number` has it.
pub const NO_TAG: u8 = 34;

// How many tags there are.
pub const TAG_COUNT: usize = 34;

// The number of a tag, 0 to 33 in the order of the tags' first rows; `NO_TAG` for bytes that are no tag.
pub fn tag_number(tag: &[u8]) -> u8
    ensures { result ≡ tag_number tag.now }
{
    match tag {
        [a, b] => number_of_two(packed(*a, *b, 1, 0)),
        [a, b, c] => number_of_three(packed(*a, *b, *c, 1)),
        _ => NO_TAG,
    }
}

// Four bytes packed into one number, the first byte lowest. A 1 stands above the last byte of a tag, and 0 above that.
fn packed(a: u8, b: u8, c: u8, d: u8) -> u32
    ensures { result ≡ a + 256 * (b + 256 * (c + 256 * d)) }
{
    u32::from_le_bytes([a, b, c, d])
}

// The number of the tag whose two bytes are packed. Two matches are faster than one: each has fewer numbers to tell apart.
#[tactic(auto, unfolding(crate::specs::internal::Packed::packed_number))]
fn number_of_two(packed: u32) -> u8
    requires { packed < 131072 }
    ensures { result ≡ packed_number packed }
{
    match packed {
        0x15453 => 0, // ST
        0x1314e => 7, // N1
        0x1324e => 8, // N2
        0x1334e => 9, // N3
        0x1344e => 10, // N4
        0x14c48 => 12, // HL
        0x15343 => 16, // CS
        0x14d4c => 20, // LM
        0x1514c => 21, // LQ
        0x14352 => 29, // RC
        0x14553 => 33, // SE
        _ => NO_TAG,
    }
}

// The number of the tag whose three bytes are packed.
#[tactic(auto, unfolding(crate::specs::internal::Packed::packed_number))]
fn number_of_three(packed: u32) -> u8
    requires { 131072 ≤ packed }
    ensures { result ≡ packed_number packed }
{
    match packed {
        0x1524e42 => 1, // BNR
        0x1464552 => 2, // REF
        0x14d5444 => 3, // DTM
        0x1444950 => 4, // PID
        0x141454d => 5, // MEA
        0x14b5750 => 6, // PWK
        0x1524550 => 11, // PER
        0x14e494c => 13, // LIN
        0x1535250 => 14, // PRS
        0x1444943 => 15, // CID
        0x1595451 => 17, // QTY
        0x1444d54 => 18, // TMD
        0x1445350 => 19, // PSD
        0x1314146 => 22, // FA1
        0x1324146 => 23, // FA2
        0x1535053 => 24, // SPS
        0x1415453 => 25, // STA
        0x144434e => 26, // NCD
        0x145544e => 27, // NTE
        0x1544d41 => 28, // AMT
        0x1494645 => 30, // EFI
        0x14e4942 => 31, // BIN
        0x141434e => 32, // NCA
        _ => NO_TAG,
    }
}
