//! Words and the draw of two indexes.
ghost use Rattle.std.specs.Prelude.{⊤};

use std::hash::{BuildHasherDefault, DefaultHasher};
use std::test::Fail;
use tests_support::checks::Checks;
use tower_base::util::rng::{HasherRng, Rng, sample_floyd2};

// A generic body, so that the proof goes by the trait's contract.
fn words<R: Rng>(rng: &mut R) -> [u64; 2] {
    [rng.next_u64(), rng.next_u64()]
}

type Sip = BuildHasherDefault<DefaultHasher>;

// The Rust's hashes of the first numbers of 64 bits.
const SIP: [u64; 3] = [
    13646096770106105413,
    2206609067086327257,
    11876854719037224982,
];

#[test]
fn words_are_the_hashes_of_a_counter(rt: HostRuntime) {
    let mut rng: HasherRng<Sip> = HasherRng::with_hasher(BuildHasherDefault::new());
    assert_eq!(rt; words(&mut rng), [SIP[0], SIP[1]]);
    assert_eq!(rt; rng.next_u64(), SIP[2]);
}

#[test]
fn a_clone_goes_on_from_the_same_counter(rt: HostRuntime) -> Result<(), Fail> {
    let checks = Checks::new(rt.alloc());
    let mut rng: HasherRng<Sip> = HasherRng::with_hasher(BuildHasherDefault::new());
    rng.next_u64();
    let mut other = rng.clone()?;
    checks.same(&words(&mut other), &[SIP[1], SIP[2]]);
    checks.same(&words(&mut rng), &[SIP[1], SIP[2]]);
    checks.verdict()
}

// The kit's default hasher of the first numbers of 64 bits, by three lines of Python:
// `p = (0x243f6a8885a308d3 ^ n) * (0x9e3779b97f4a7c15 ^ 16)`, `low = p % 2**64`, `print(low ^ p >> 64)`.
const FOLD: [u64; 2] = [11929241555534134038, 275466369744191251];

#[test]
fn new_generators_give_the_same_words(rt: HostRuntime) {
    let mut fresh = HasherRng::new();
    let mut other: HasherRng = Default::default();
    assert_eq!(rt; words(&mut fresh), FOLD);
    assert_eq!(rt; words(&mut other), FOLD);
}

#[test]
fn a_range_takes_the_rest_of_a_word(rt: HostRuntime) {
    let mut rng: HasherRng<Sip> = HasherRng::with_hasher(BuildHasherDefault::new());
    assert_eq!(rt; rng.next_range(7..17), SIP[0] % 10 + 7);
    assert_eq!(rt; rng.next_range(0..u64::MAX), SIP[1]);
    assert_eq!(rt; rng.next_range(3..4), 3);
}

// Gives its two words one after the other, for ever.
#[derive(Drop)]
struct TwoWords {
    words: [u64; 2],
}

impl Rng for TwoWords {
    ghost drew = { λ _ _ _. ⊤ };

    fn next_u64(&mut self) -> u64 {
        let [first, second] = self.words;
        self.words = [second, first];
        first
    }
}

#[test]
fn two_words_draw_two_indexes(rt: HostRuntime) {
    for (length, words, drawn) in [
        (4, [2, 2], [3, 2]),
        (3, [1, 1], [2, 1]),
        (2, [0, 0], [1, 0]),
        (2, [0, 1], [0, 1]),
        (4, [1, 3], [1, 3]),
        (4, [5, 6], [3, 2]),
        (u64::MAX, [u64::MAX, u64::MAX], [1, 0]),
    ] {
        let mut rng = TwoWords { words };
        assert_eq!(rt;
            sample_floyd2(&mut rng, length),
            drawn,
            "{words:?} below {length}"
        );
    }
}
