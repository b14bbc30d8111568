//! SipHash-2-4 with 128 bits (Aumasson and Bernstein, "SipHash: a fast short-input PRF", 2012) under two keys, side by side.

ghost use Rattle.std.specs.Prelude.{◌≡◌};
ghost use Rattle.bh_blocks.specs.SipHash as spec;

/// The state under one key.
#[derive(Clone, Copy)]
pub struct Lane {
    pub v0: u64,
    pub v1: u64,
    pub v2: u64,
    pub v3: u64,
}

/// The states under both.
#[derive(Clone, Copy)]
pub struct Lanes {
    pub one: Lane,
    pub other: Lane,
}

#[tactic(auto, unfolding(crate::specs::SipHash::keyed))]
fn keyed(k0: u64, k1: u64) -> Lane
    ensures { result ≡ spec.keyed k0 k1 }
{
    Lane {
        v0: k0 ^ 0x736f_6d65_7073_6575,
        v1: k1 ^ 0x646f_7261_6e64_6f6d ^ 0xee,
        v2: k0 ^ 0x6c79_6765_6e65_7261,
        v3: k1 ^ 0x7465_6462_7974_6573,
    }
}

#[tactic(auto, unfolding(crate::specs::SipHash::start))]
/// The keys are the bytes 0 to 15, and 16 to 31.
fn start() -> Lanes
    ensures { result ≡ spec.start }
{
    Lanes {
        one: keyed(0x0706_0504_0302_0100, 0x0f0e_0d0c_0b0a_0908),
        other: keyed(0x1716_1514_1312_1110, 0x1f1e_1d1c_1b1a_1918),
    }
}

#[tactic(auto, unfolding(crate::specs::SipHash::round))]
#[inline(always)]
fn round(lane: Lane) -> Lane
    ensures { result ≡ spec.round lane }
{
    let v0 = lane.v0.wrapping_add(lane.v1);
    let v2 = lane.v2.wrapping_add(lane.v3);
    let v1 = lane.v1.rotate_left(13) ^ v0;
    let v3 = lane.v3.rotate_left(16) ^ v2;
    let v0 = v0.rotate_left(32).wrapping_add(v3);
    let v2 = v2.wrapping_add(v1);
    Lane {
        v0,
        v1: v1.rotate_left(17) ^ v2,
        v2: v2.rotate_left(32),
        v3: v3.rotate_left(21) ^ v0,
    }
}

#[tactic(auto, unfolding(crate::specs::SipHash::absorb))]
#[inline(always)]
fn absorb(lane: Lane, word: u64) -> Lane
    ensures { result ≡ spec.absorb lane word }
{
    let mixed = round(round(Lane {
        v3: lane.v3 ^ word,
        ..lane
    }));
    Lane {
        v0: mixed.v0 ^ word,
        ..mixed
    }
}

#[tactic(auto, unfolding(crate::specs::SipHash::absorb_both))]
#[inline(always)]
fn absorb_both(lanes: Lanes, word: u64) -> Lanes
    ensures { result ≡ spec.absorb_both lanes word }
{
    Lanes {
        one: absorb(lanes.one, word),
        other: absorb(lanes.other, word),
    }
}

fn absorb_all(lanes: Lanes, words: &[[u8; 8]]) -> Lanes
    ensures { result ≡ spec.absorb_all lanes words.now }
{
    words.iter().fold(lanes, |lanes, word| {
        absorb_both(lanes, u64::from_le_bytes(*word))
    })
}

/// The last bytes, less than a word, the first of them lowest.
fn tail_of(rest: &[u8]) -> u64
    ensures { result ≡ spec.tail_of rest.now }
{
    rest.iter()
        .rev()
        .fold(0, |word, byte| word << 8 | *byte as u64)
}

#[tactic(auto, unfolding(crate::specs::SipHash::last_word))]
/// They, and as the highest byte how many bytes there are, modulo 256.
fn last_word(rest: &[u8], count: usize) -> u64
    ensures { result ≡ spec.last_word rest.now count }
{
    ((count % 256) as u64) << 56 | tail_of(rest)
}

#[tactic(auto, unfolding(crate::specs::SipHash::four_rounds))]
fn four_rounds(lane: Lane) -> Lane
    ensures { result ≡ spec.four_rounds lane }
{
    round(round(round(round(lane))))
}

fn folded(lane: Lane) -> u64
    ensures { result ≡ spec.folded lane }
{
    lane.v0 ^ lane.v1 ^ lane.v2 ^ lane.v3
}

#[tactic(auto, unfolding(crate::specs::SipHash::end_of))]
/// The two words that a state ends in.
fn end_of(lane: Lane) -> (u64, u64)
    ensures { result ≡ spec.end_of lane }
{
    let first = four_rounds(Lane {
        v2: lane.v2 ^ 0xee,
        ..lane
    });
    let second = four_rounds(Lane {
        v1: first.v1 ^ 0xdd,
        ..first
    });
    (folded(first), folded(second))
}

fn in_a_row(a: [u8; 8], b: [u8; 8], c: [u8; 8], d: [u8; 8]) -> [u8; 32]
    ensures { result ≡ spec.in_a_row a b c d }
{
    [
        a[0], a[1], a[2], a[3], a[4], a[5], a[6], a[7], b[0], b[1], b[2], b[3], b[4], b[5], b[6],
        b[7], c[0], c[1], c[2], c[3], c[4], c[5], c[6], c[7], d[0], d[1], d[2], d[3], d[4], d[5],
        d[6], d[7],
    ]
}

#[tactic(auto, unfolding(crate::specs::SipHash::digest_in))]
fn digest_in(lanes: Lanes) -> [u8; 32]
    ensures { result ≡ spec.digest_in lanes }
{
    let (a, b) = end_of(lanes.one);
    let (c, d) = end_of(lanes.other);
    in_a_row(
        a.to_le_bytes(),
        b.to_le_bytes(),
        c.to_le_bytes(),
        d.to_le_bytes(),
    )
}

#[tactic(auto, unfolding(crate::specs::SipHash::siphash))]
/// The digests of 128 bits of some bytes under both keys.
pub fn siphash(bytes: &[u8]) -> [u8; 32]
    ensures { result ≡ spec.siphash bytes.now }
{
    let (words, rest) = bytes.as_chunks::<8>();
    let lanes = absorb_all(start(), words);
    digest_in(absorb_both(lanes, last_word(rest, bytes.len())))
}
